//! One request, done on the area that it asks, or by the node itself.
ghost use Rattle.std.specs.Prelude.{◌≡◌, ◌<◌, ◌≤◌, ℕ, List, Option, false, length, IfOk, OnErr};
ghost use Rattle.jb_limits.specs.declared.limits.TheConstants.{MOST_NAME_BYTES};
ghost use Rattle.std.specs.Option.{option_map};
ghost use Rattle.jb_host.specs.Readings.{readings_after};
ghost use Rattle.jb_shared.specs.Areas.{IsOf};
ghost use Rattle.jb_base.specs.declared.user.User.{User};
ghost use Rattle.jb_page.specs.Pagers.{HasPager};
ghost use Rattle.jb_shared.specs.Passes.{PassView};
ghost use Rattle.jb_speech.specs.Posture.{is_line};
ghost use Rattle.jb_speech.specs.declared.request.Act.{Act};
ghost use Rattle.jb_speech.specs.declared.request.AreaRequest.{AreaRequest};
ghost use Rattle.jb_speech.specs.declared.request.Request.TheVariants as request_kind;
ghost use Rattle.jb_session.specs.Exchanges.{Answers, AreOf, Exchanged, GivesAnswer, Lacks, Wants, left_by, node_with};

use jb_base::{OutOfMemory, User};
use jb_conf::Board;
use jb_disk::Disk;
use jb_host::Clock;
use jb_menu::Given;
use jb_model::Command;
use jb_page::{Pager, Pages};
use jb_shared::{Pass, SharedArea, SharedError};
use jb_speech::{Act, Request, Speaker};
use jb_state::{Barred, LookError, Question, SharedFault, Short};
use std::alloc::Global;
use std::sync::Wait;

/// Asks a command, at the moment that the clock shows, which is read once. `has_settled` is then whether that has ended a doubt.
fn call<R: Wait, D: Disk, C: Clock>(
    rt: &R,
    alloc: Global,
    area: &SharedArea<D>,
    pass: &mut Pass,
    clock: &mut C,
    user: &User,
    command: &Command,
    has_settled: &mut bool,
) -> Result<Given, OutOfMemory>
    requires ours { IsOf area.now pass.old }
    requires name { length user.now.name ≤ MOST_NAME_BYTES }
    ensures ours { IsOf area.now pass.new }
    ensures clock { C.readings clock.new ≡ option_map readings_after (C.readings clock.old) }
    ensures ok { IfOk result (λ given. GivesAnswer (C.readings clock.old) user.now
        (Act.Ask command.now) pass.old.known pass.new.known given) }
    ensures err { OnErr result (Wants (C.readings clock.old) user.now
        (Act.Ask command.now) pass.old.known pass.new.known) }
{
    let moment = clock.now();
    let came = area.call(rt, alloc, pass, user, moment, command);
    *has_settled = pass.has_settled();
    match came {
        Ok(reply) => Ok(Given::Reply(reply)),
        Err(SharedError::StoreFault) => Ok(Given::Fault(SharedFault::StoreFault)),
        Err(SharedError::RunSpent) => Ok(Given::Fault(SharedFault::RunSpent)),
        Err(SharedError::OutOfMemory) => Err(OutOfMemory),
    }
}

/// Asks a question. It waits for nobody.
fn look<D: Disk>(
    area: &SharedArea<D>,
    pass: &mut Pass,
    user: &User,
    question: &Question,
) -> Result<Given, OutOfMemory>
    requires ours { IsOf area.now pass.old }
    ensures ours { IsOf area.now pass.new }
    ensures ok { (readings : Option (List ℕ)) → IfOk result (λ given.
        GivesAnswer readings user.now (Act.Look question.now) pass.old.known pass.new.known given) }
    ensures err { (readings : Option (List ℕ)) → OnErr result
        (Wants readings user.now (Act.Look question.now) pass.old.known pass.new.known) }
{
    match area.look(pass, user, question) {
        Ok(answer) => Ok(Given::Answer(answer)),
        Err(LookError::Barred) => Ok(Given::Fault(SharedFault::Barred)),
        Err(LookError::OutOfMemory) => Err(OutOfMemory),
    }
}

/// Counts what is unread. It waits for nobody.
fn count<D: Disk>(area: &SharedArea<D>, pass: &mut Pass, user: &User) -> Given
    requires ours { IsOf area.now pass.old }
    ensures ours { IsOf area.now pass.new }
    ensures ok { (readings : Option (List ℕ))
        → GivesAnswer readings user.now Act.Count pass.old.known pass.new.known result }
{
    match area.unread_count(pass, user) {
        Ok(unread) => Given::Count(unread),
        Err(Barred) => Given::Fault(SharedFault::Barred),
    }
}

/// Does what the user asks on the area.
fn act<R: Wait, D: Disk, C: Clock>(
    rt: &R,
    alloc: Global,
    area: &SharedArea<D>,
    pass: &mut Pass,
    clock: &mut C,
    user: &User,
    act: &Act,
    has_settled: &mut bool,
) -> Result<Given, OutOfMemory>
    requires ours { IsOf area.now pass.old }
    requires name { length user.now.name ≤ MOST_NAME_BYTES }
    ensures ours { IsOf area.now pass.new }
    ensures clock { C.readings clock.new ≡ left_by act.now (C.readings clock.old) }
    ensures ok { IfOk result (λ given. GivesAnswer
        (C.readings clock.old) user.now act.now pass.old.known pass.new.known given) }
    ensures err { OnErr result (Wants (C.readings clock.old) user.now act.now pass.old.known pass.new.known) }
{
    match act {
        Act::Ask(command) => call(rt, alloc, area, pass, clock, user, command, has_settled),
        Act::Look(question) => look(area, pass, user, question),
        Act::Count => Ok(count(area, pass, user)),
    }
}

/// Sends a page to a node that is there, and tells whether it was sent.
fn send<R: Wait>(
    rt: &R,
    pages: &Pages,
    pager: &mut Option<Pager>,
    to: u32,
    text: Short<72>,
) -> Given
    requires pager { (reach : ℕ) × HasPager pages.now reach pager.old × (0 < to) × (to ≤ reach) }
    ensures pager { (reach : ℕ) → HasPager pages.now reach pager.old → HasPager pages.now reach pager.new }
    ensures no_line { is_line result ≡ false }
    ensures answers { (user_of : AreaRequest → Option User) (readings : Option (List ℕ)) (passes : List PassView)
        → Answers user_of (request_kind.Send to text) result (node_with readings passes pager.old) (node_with readings passes pager.new) }
{
    prove!(text.first.len() == 72);
    match pager {
        Some(pager) => Given::Sent(pages.send(rt, pager, to, text.as_slice())),
        None => unreachable!(),
    }
}

/// Takes the oldest page that waits for the node, where there is one.
fn take<R: Wait>(rt: &R, pages: &Pages, pager: &mut Option<Pager>) -> Given
    requires pager { (reach : ℕ) × HasPager pages.now reach pager.old × (0 < reach) }
    ensures pager { (reach : ℕ) → HasPager pages.now reach pager.old → HasPager pages.now reach pager.new }
    ensures no_line { is_line result ≡ false }
    ensures answers { (user_of : AreaRequest → Option User) (readings : Option (List ℕ)) (passes : List PassView)
        → Answers user_of request_kind.Take result (node_with readings passes pager.old) (node_with readings passes pager.new) }
{
    match pager {
        Some(pager) => Given::Page(pages.take(rt, pager)),
        None => unreachable!(),
    }
}

/// Does a request of a speaker: on the area that it asks, on its pass; of the clock, which is read once; or with the node's pager. A fault of
/// the area is an answer too; without memory there is none. A command says in `has_settled` whether it has ended a doubt.
pub(crate) fn exchange<T: Speaker, R: Wait, D: Disk, C: Clock>(
    rt: &R,
    alloc: Global,
    board: &Board,
    areas: &[SharedArea<D>],
    passes: &mut [Pass],
    pages: &Pages,
    pager: &mut Option<Pager>,
    clock: &mut C,
    talk: &T,
    request: &Request,
    has_settled: &mut bool,
) -> Result<Given, OutOfMemory>
    requires areas { length areas.now ≡ length board.now.areas }
    requires ours { AreOf areas.now passes.old }
    requires pager { HasPager pages.now (T.reach board.now) pager.old }
    requires hands { T.hands_out board.now talk.now (Some request.now) }
    ensures ours { AreOf areas.now passes.new }
    ensures pager { HasPager pages.now (T.reach board.now) pager.new }
    ensures answer { IfOk result (λ given. is_line given ≡ false) }
    ensures ok { IfOk result (λ given. Exchanged (T.user_of board.now) (record { request = request.now; given = given })
        (node_with (C.readings clock.old) passes.old pager.old) (node_with (C.readings clock.new) passes.new pager.new)) }
    ensures err { OnErr result (Lacks (T.user_of board.now) request.now
        (node_with (C.readings clock.old) passes.old pager.old) (node_with (C.readings clock.new) passes.new pager.new)) }
{
    T::laws();
    match request {
        Request::Area(asked) => {
            let user = talk.user_of(board, asked);
            let k = asked.area as usize;
            act(
                rt,
                alloc,
                &areas[k],
                &mut passes[k],
                clock,
                user,
                &asked.act,
                has_settled,
            )
        }
        Request::Clock => Ok(Given::Moment(clock.now())),
        Request::Send { to, text } => Ok(send(rt, pages, pager, *to, *text)),
        Request::Take => Ok(take(rt, pages, pager)),
    }
}
