//! The loop of a session: what is owed is sent, a piece is read and heard, and what it asks is answered.
ghost use Rattle.std.specs.Prelude.{◌≡◌, ◌+◌, ◌<◌, ◌≤◌, ℕ, List, [], None, Option, Some, false, true, IfErr, IfOk, OnErr, OnOk, drop, length, take};
ghost use Rattle.std.specs.Option.{is_some};
ghost use Rattle.jb_limits.specs.declared.limits.TheConstants.{MOST_SESSION_BYTES};
ghost use Rattle.jb_host.specs.Wire.{Wire};
ghost use Rattle.jb_page.specs.Pagers.{HasPager};
ghost use Rattle.jb_speech.specs.declared.request.Request.{Request};
ghost use Rattle.jb_session.specs.Exchanges.{AreOf, NodeState, node_with};
ghost use Rattle.jb_session.specs.Served.{Served, ServedBy, Stands};
ghost use Rattle.jb_session.specs.declared.sending.TheConstants.{MOST_OWED};

use crate::end::{SessionEnd, ended};
use crate::exchange::exchange;
use crate::log::Log;
use crate::sending::{MOST_OWED, laws, read_piece, send_owed};
use jb_base::OutOfMemory;
use jb_conf::Board;
use jb_disk::Disk;
use jb_host::{Clock, Link};
use jb_page::{Pager, Pages};
use jb_shared::{Pass, SharedArea};
use jb_speech::{MOST_PIECE_BYTES, Request, Speaker};
use jb_talk::Talk;
use std::alloc::Global;
use std::sync::Wait;

/// Does a request while no more is owed than may be, and tells the speaker the answer. Gives the request that follows.
fn respond<T: Speaker, R: Wait, D: Disk, L: Link, C: Clock>(
    rt: &R,
    alloc: Global,
    board: &Board,
    areas: &[SharedArea<D>],
    passes: &mut [Pass],
    pages: &Pages,
    pager: &mut Option<Pager>,
    link: &mut L,
    clock: &mut C,
    log: &mut Log,
    talk: &mut T,
    request: &Request,
) -> Result<Option<Request>, OutOfMemory>
    requires areas { length areas.now ≡ length board.now.areas }
    requires ours { AreOf areas.now passes.old }
    requires pager { HasPager pages.now (T.reach board.now) pager.old }
    requires hands { T.hands_out board.now talk.old (Some request.now) }
    requires few { length (T.posture talk.old).owed ≤ MOST_OWED }
    ensures ours { AreOf areas.now passes.new }
    ensures pager { HasPager pages.now (T.reach board.now) pager.new }
    ensures wire { L.wire link.new ≡ L.wire link.old }
    ensures hands { IfOk result (λ next. T.hands_out board.now talk.new next) }
    ensures counted { OnOk result ((T.posture talk.new).taken ≡ (T.posture talk.old).taken) }
    ensures fewer { IfOk result (λ next. is_some next ≡ true
        → (T.posture talk.new).most_asked board.now < (T.posture talk.old).most_asked board.now) }

    // What was said and asked, and how the session ends where memory is wanting.
    ensures ok { IfOk result (λ next. (old now : Wire) (from : NodeState) (rest : List ℕ)
        → Stands T.user_of T.has_talked board.now old from now rest talk.old (Some request.now) (node_with (C.readings clock.old) passes.old pager.old)
        → Stands T.user_of T.has_talked board.now old from now rest talk.new next (node_with (C.readings clock.new) passes.new pager.new)) }
    ensures err { OnErr result ((old now : Wire) (from : NodeState) (rest : List ℕ)
        → Stands T.user_of T.has_talked board.now old from now rest talk.old (Some request.now) (node_with (C.readings clock.old) passes.old pager.old)
        → ServedBy T.talks T.user_of board.now old from SessionEnd.OutOfMemory now (node_with (C.readings clock.new) passes.new pager.new)) }
{
    laws::<T>();
    log.ask(link, request);
    let mut has_settled = false;
    let given = exchange(
        rt,
        alloc,
        board,
        areas,
        passes,
        pages,
        pager,
        clock,
        talk,
        request,
        &mut has_settled,
    )?;
    log.keep(request, &given, has_settled);
    talk.answer(alloc, board, &given)
}

/// Does a request, where there is one, and all that follow; or ends the session. Before each it sends what is owed where that is long.
fn respond_all<T: Speaker, R: Wait, D: Disk, L: Link, C: Clock>(
    rt: &R,
    alloc: Global,
    board: &Board,
    areas: &[SharedArea<D>],
    passes: &mut [Pass],
    pages: &Pages,
    pager: &mut Option<Pager>,
    link: &mut L,
    clock: &mut C,
    log: &mut Log,
    talk: &mut T,
    first: Option<Request>,
) -> Result<(), SessionEnd>
    requires areas { length areas.now ≡ length board.now.areas }
    requires ours { AreOf areas.now passes.old }
    requires pager { HasPager pages.now (T.reach board.now) pager.old }
    requires hands { T.hands_out board.now talk.old first }
    ensures ours { AreOf areas.now passes.new }
    ensures pager { HasPager pages.now (T.reach board.now) pager.new }
    ensures hands { OnOk result (T.hands_out board.now talk.new None) }
    ensures counted { OnOk result ((T.posture talk.new).taken ≡ (T.posture talk.old).taken) }

    // What was said and asked, and how the session ends.
    ensures ok { OnOk result ((old : Wire) (from : NodeState) (rest : List ℕ)
        → Stands T.user_of T.has_talked board.now old from (L.wire link.old) rest talk.old first (node_with (C.readings clock.old) passes.old pager.old)
        → Stands T.user_of T.has_talked board.now old from (L.wire link.new) rest talk.new None (node_with (C.readings clock.new) passes.new pager.new)) }
    ensures err { IfErr result (λ end. (old : Wire) (from : NodeState) (rest : List ℕ)
        → Stands T.user_of T.has_talked board.now old from (L.wire link.old) rest talk.old first (node_with (C.readings clock.old) passes.old pager.old)
        → ServedBy T.talks T.user_of board.now old from end (L.wire link.new) (node_with (C.readings clock.new) passes.new pager.new)) }
{
    let mut next = first;
    while let Some(request) = next {
        send_owed(link, talk, MOST_OWED)?;
        next = respond(
            rt, alloc, board, areas, passes, pages, pager, link, clock, log, talk, &request,
        )?;
    }
    Ok(())
}

/// What of a piece is heard at once: it ends at the first byte that can end a line.
fn first_line(piece: &[u8]) -> &[u8]
    ensures front { result.now ≡ take (length result.now) piece.now }
    ensures within { length result.now ≤ length piece.now }
    ensures some { 0 < length piece.now → 0 < length result.now }
{
    match piece.iter().position(|byte| matches!(*byte, b'\r' | b'\n')) {
        Some(at) => &piece[..at + 1],
        None => piece,
    }
}

/// Hears a piece while no more is owed than may be, as far as the byte at which a line ends or something is asked, and does
/// all that is asked then; or ends the session. Gives how many bytes were heard.
fn hear<T: Speaker, R: Wait, D: Disk, L: Link, C: Clock>(
    rt: &R,
    alloc: Global,
    board: &Board,
    areas: &[SharedArea<D>],
    passes: &mut [Pass],
    pages: &Pages,
    pager: &mut Option<Pager>,
    link: &mut L,
    clock: &mut C,
    log: &mut Log,
    talk: &mut T,
    piece: &[u8],
) -> Result<usize, SessionEnd>
    requires areas { length areas.now ≡ length board.now.areas }
    requires ours { AreOf areas.now passes.old }
    requires pager { HasPager pages.now (T.reach board.now) pager.old }
    requires hands { T.hands_out board.now talk.old None }
    requires room { (T.posture talk.old).taken + length piece.now ≤ MOST_SESSION_BYTES }
    requires few { length (T.posture talk.old).owed ≤ MOST_OWED }
    ensures ours { AreOf areas.now passes.new }
    ensures pager { HasPager pages.now (T.reach board.now) pager.new }
    ensures hands { OnOk result (T.hands_out board.now talk.new None) }
    ensures within { IfOk result (λ heard. heard ≤ length piece.now) }
    ensures some { IfOk result (λ heard. 0 < length piece.now → 0 < heard) }
    ensures counted { IfOk result (λ heard. (T.posture talk.new).taken ≡ (T.posture talk.old).taken + heard) }

    // What was said and asked, and how the session ends.
    ensures ok { IfOk result (λ heard. (old : Wire) (from : NodeState)
        → Stands T.user_of T.has_talked board.now old from (L.wire link.old) piece.now talk.old None (node_with (C.readings clock.old) passes.old pager.old)
        → Stands T.user_of T.has_talked board.now old from (L.wire link.new)
        (drop heard piece.now) talk.new None (node_with (C.readings clock.new) passes.new pager.new)) }
    ensures err { IfErr result (λ end. (old : Wire) (from : NodeState)
        → Stands T.user_of T.has_talked board.now old from (L.wire link.old) piece.now talk.old None (node_with (C.readings clock.old) passes.old pager.old)
        → ServedBy T.talks T.user_of board.now old from end (L.wire link.new) (node_with (C.readings clock.new) passes.new pager.new)) }
{
    laws::<T>();
    log.look(talk);
    let heard = talk.hear(alloc, board, first_line(piece))?;
    respond_all(
        rt,
        alloc,
        board,
        areas,
        passes,
        pages,
        pager,
        link,
        clock,
        log,
        talk,
        heard.request,
    )?;
    Ok(heard.taken)
}

/// Hears a piece, and does all that it asks; or ends the session. Before each line it sends what is owed where that is long.
fn take<T: Speaker, R: Wait, D: Disk, L: Link, C: Clock>(
    rt: &R,
    alloc: Global,
    board: &Board,
    areas: &[SharedArea<D>],
    passes: &mut [Pass],
    pages: &Pages,
    pager: &mut Option<Pager>,
    link: &mut L,
    clock: &mut C,
    log: &mut Log,
    talk: &mut T,
    piece: &[u8],
) -> Result<(), SessionEnd>
    requires areas { length areas.now ≡ length board.now.areas }
    requires ours { AreOf areas.now passes.old }
    requires pager { HasPager pages.now (T.reach board.now) pager.old }
    requires hands { T.hands_out board.now talk.old None }
    requires room { (T.posture talk.old).taken + length piece.now ≤ MOST_SESSION_BYTES }
    ensures ours { AreOf areas.now passes.new }
    ensures pager { HasPager pages.now (T.reach board.now) pager.new }
    ensures hands { OnOk result (T.hands_out board.now talk.new None) }
    ensures counted { OnOk result ((T.posture talk.new).taken ≡ (T.posture talk.old).taken + length piece.now) }

    // What was said and asked, and how the session ends.
    ensures ok { OnOk result ((old : Wire) (from : NodeState)
        → Stands T.user_of T.has_talked board.now old from (L.wire link.old) piece.now talk.old None (node_with (C.readings clock.old) passes.old pager.old)
        → Stands T.user_of T.has_talked board.now old from (L.wire link.new) [] talk.new None (node_with (C.readings clock.new) passes.new pager.new)) }
    ensures err { IfErr result (λ end. (old : Wire) (from : NodeState)
        → Stands T.user_of T.has_talked board.now old from (L.wire link.old) piece.now talk.old None (node_with (C.readings clock.old) passes.old pager.old)
        → ServedBy T.talks T.user_of board.now old from end (L.wire link.new) (node_with (C.readings clock.new) passes.new pager.new)) }
{
    let mut at = 0;
    while at < piece.len() {
        send_owed(link, talk, MOST_OWED)?;
        let rest = &piece[at..];
        at += hear(
            rt, alloc, board, areas, passes, pages, pager, link, clock, log, talk, rest,
        )?;
        log.tell(link, talk);
    }
    Ok(())
}

/// Reads a piece, does what it leads to, and sends what is owed then; or ends the session.
fn turn<T: Speaker, R: Wait, D: Disk, L: Link, C: Clock>(
    rt: &R,
    alloc: Global,
    board: &Board,
    areas: &[SharedArea<D>],
    passes: &mut [Pass],
    pages: &Pages,
    pager: &mut Option<Pager>,
    link: &mut L,
    clock: &mut C,
    log: &mut Log,
    talk: &mut T,
) -> Result<(), SessionEnd>
    requires areas { length areas.now ≡ length board.now.areas }
    requires ours { AreOf areas.now passes.old }
    requires pager { HasPager pages.now (T.reach board.now) pager.old }
    requires hands { T.hands_out board.now talk.old None }
    requires wants { 0 < (T.posture talk.old).wanted }
    ensures ours { AreOf areas.now passes.new }
    ensures pager { HasPager pages.now (T.reach board.now) pager.new }
    ensures hands { OnOk result (T.hands_out board.now talk.new None) }
    ensures taken { OnOk result (((T.posture talk.old).taken < (T.posture talk.new).taken) × ((T.posture talk.new).taken ≤ MOST_SESSION_BYTES)) }
    ensures owed { OnOk result ((T.posture talk.new).owed ≡ []) }

    // What was said and asked, and how the session ends.
    ensures ok { OnOk result ((old : Wire) (from : NodeState)
        → Stands T.user_of T.has_talked board.now old from (L.wire link.old) [] talk.old None (node_with (C.readings clock.old) passes.old pager.old)
        → Stands T.user_of T.has_talked board.now old from (L.wire link.new) [] talk.new None (node_with (C.readings clock.new) passes.new pager.new)) }
    ensures err { IfErr result (λ end. (old : Wire) (from : NodeState)
        → Stands T.user_of T.has_talked board.now old from (L.wire link.old) [] talk.old None (node_with (C.readings clock.old) passes.old pager.old)
        → ServedBy T.talks T.user_of board.now old from end (L.wire link.new) (node_with (C.readings clock.new) passes.new pager.new)) }
{
    laws::<T>();
    let mut buffer = [0u8; MOST_PIECE_BYTES];
    let Ok(n) = read_piece(link, &mut buffer, talk.wants()) else {
        return Err(SessionEnd::LinkFault);
    };
    if n == 0 {
        return Err(SessionEnd::Hangup);
    }
    let piece = &buffer[..n];
    take(
        rt, alloc, board, areas, passes, pages, pager, link, clock, log, talk, piece,
    )?;
    send_owed(link, talk, 0)?;
    Ok(())
}

/// Serves one caller with a speaker that has begun, from the greeting to the end.
fn serve_talk<T: Speaker, R: Wait, D: Disk, L: Link, C: Clock>(
    rt: &R,
    alloc: Global,
    board: &Board,
    areas: &[SharedArea<D>],
    passes: &mut [Pass],
    pages: &Pages,
    pager: &mut Option<Pager>,
    link: &mut L,
    clock: &mut C,
    log: &mut Log,
    talk: &mut T,
) -> SessionEnd
    requires areas { length areas.now ≡ length board.now.areas }
    requires ours { AreOf areas.now passes.old }
    requires pager { HasPager pages.now (T.reach board.now) pager.old }
    requires hands { T.hands_out board.now talk.old None }
    requires fits { T.has_talked board.now talk.old [] [] [] [] }
    ensures ours { AreOf areas.now passes.new }
    ensures pager { HasPager pages.now (T.reach board.now) pager.new }
    ensures served { ServedBy T.talks T.user_of board.now (L.wire link.old) (node_with (C.readings clock.old) passes.old pager.old) result
        (L.wire link.new) (node_with (C.readings clock.new) passes.new pager.new) }
{
    laws::<T>();
    let Ok(()) = send_owed(link, talk, 0) else {
        return SessionEnd::LinkFault;
    };
    while talk.wants() > 0 {
        if let Err(end) = turn(
            rt, alloc, board, areas, passes, pages, pager, link, clock, log, talk,
        ) {
            return end;
        }
    }
    ended(talk.end())
}

/// Serves one caller with a speaker of this kind, from the greeting to the end, on the passes of a node: one for each area of the board, in
/// order; and with its pager, where pages are sent.
///
/// All that is owed is sent before more is read, and no more is read than one session takes. Of what is owed a session holds
/// at most 65,536 bytes and what one line or one answer leads to: what is more is sent before the next line or request. A fault
/// of an area is said, and the session goes on; after a fault of the link or without memory nothing more is sent.
pub fn serve_as<T: Speaker + Drop, R: Wait, D: Disk, L: Link, C: Clock>(
    rt: &R,
    alloc: Global,
    board: &Board,
    areas: &[SharedArea<D>],
    passes: &mut [Pass],
    pages: &Pages,
    pager: &mut Option<Pager>,
    link: &mut L,
    clock: &mut C,
) -> SessionEnd
    requires areas { length areas.now ≡ length board.now.areas }
    requires ours { AreOf areas.now passes.old }
    requires pager { HasPager pages.now (T.reach board.now) pager.old }
    ensures ours { AreOf areas.now passes.new }
    ensures pager { HasPager pages.now (T.reach board.now) pager.new }
    ensures served { ServedBy T.talks T.user_of board.now (L.wire link.old) (node_with (C.readings clock.old) passes.old pager.old) result
        (L.wire link.new) (node_with (C.readings clock.new) passes.new pager.new) }
{
    laws::<T>();
    let mut log = Log::begin(link, clock.glance());
    let Ok(mut talk) = T::start(alloc, board) else {
        return log.end(link, clock, SessionEnd::OutOfMemory);
    };
    let end = serve_talk(
        rt, alloc, board, areas, passes, pages, pager, link, clock, &mut log, &mut talk,
    );
    log.end(link, clock, end)
}

/// Serves one caller by Telnet, as [`serve_as`] does.
pub fn serve_session<R: Wait, D: Disk, L: Link, C: Clock>(
    rt: &R,
    alloc: Global,
    board: &Board,
    areas: &[SharedArea<D>],
    passes: &mut [Pass],
    pages: &Pages,
    pager: &mut Option<Pager>,
    link: &mut L,
    clock: &mut C,
) -> SessionEnd
    requires areas { length areas.now ≡ length board.now.areas }
    requires ours { AreOf areas.now passes.old }
    requires pager { HasPager pages.now board.now.nodes pager.old }
    ensures ours { AreOf areas.now passes.new }
    ensures pager { HasPager pages.now board.now.nodes pager.new }
    ensures served { Served board.now (L.wire link.old) (node_with (C.readings clock.old) passes.old pager.old) result
        (L.wire link.new) (node_with (C.readings clock.new) passes.new pager.new) }
{
    serve_as::<Talk, R, D, L, C>(rt, alloc, board, areas, passes, pages, pager, link, clock)
}
