//! What a speaker owes, sent; and a piece for it, read.
ghost use Rattle.std.specs.Prelude.{◌≡◌, ◌<◌, ◌≤◌, ℕ, List, [], Option, IfOk, OnErr, OnOk, length, take};
ghost use Rattle.std.specs.Option.{ForSome};
ghost use Rattle.jb_bytes.specs.Fault.{HasCause, Rose};
ghost use Rattle.jb_conf.specs.declared.board.Board.{Board};
ghost use Rattle.jb_host.specs.Wire.{Takes, Wire};
ghost use Rattle.jb_speech.specs.declared.request.Request.{Request};
ghost use Rattle.jb_session.specs.Exchanges.{NodeState};
ghost use Rattle.jb_session.specs.Served.{ServedBy, Stands};
ghost use Rattle.jb_session.specs.Speakers.{IsLawful};
ghost use Rattle.jb_session.specs.declared.end.SessionEnd.TheVariants.{LinkFault};

use jb_host::{Link, LinkFailed, send};
use jb_speech::Speaker;

/// What holds of every speaker.
///
/// It computes nothing: its contract is the laws.
pub(crate) fn laws<T: Speaker>()
    ensures { IsLawful T.talks T.posture T.has_talked }
{
    T::laws();
}

/// So many bytes may be owed while more of a piece is heard, or another request is made.
pub(crate) const MOST_OWED: usize = 65_536;

/// Sends all that is owed where it is more than so many bytes, in one write where the link takes it so. A refusal ends the session.
pub(crate) fn send_owed<T: Speaker, L: Link>(
    link: &mut L,
    talk: &mut T,
    most: usize,
) -> Result<(), LinkFailed>
    ensures owed { OnOk result (length (T.posture talk.new).owed ≤ most) }
    ensures counted { OnOk result ((T.posture talk.new).taken ≡ (T.posture talk.old).taken) }
    ensures asked { OnOk result ((T.posture talk.new).most_asked ≡ (T.posture talk.old).most_asked) }
    ensures hands { OnOk result ((board : Board) (next : Option Request)
        → T.hands_out board talk.old next → T.hands_out board talk.new next) }

    // What was said, and how the session ends.
    ensures ok { OnOk result ((board : Board) (old : Wire)
        (from to : NodeState) (rest : List ℕ) (next : Option Request)
        → Stands T.user_of T.has_talked board old from (L.wire link.old) rest talk.old next to
        → Stands T.user_of T.has_talked board old from (L.wire link.new) rest talk.new next to) }
    ensures err { OnErr result ((board : Board) (old : Wire)
        (from to : NodeState) (rest : List ℕ) (next : Option Request)
        → Stands T.user_of T.has_talked board old from (L.wire link.old) rest talk.old next to
        → ServedBy T.talks T.user_of board old from LinkFault (L.wire link.new) to) }
{
    laws::<T>();
    if talk.owed().len() > most {
        send(link, talk.owed())?;
        talk.was_sent();
    }
    Ok(())
}

/// Reads some bytes into a part of the buffer, at most so many; 0 only at the end of input.
pub(crate) fn read_piece<L: Link>(
    link: &mut L,
    buffer: &mut [u8],
    most: usize,
) -> Result<usize, LinkFailed>
    requires most { 0 < most }
    requires room { most ≤ length buffer.old }
    ensures within { IfOk result (λ n. n ≤ most) }
    ensures found { IfOk result (λ n. Takes (L.wire link.old).to_come (take n buffer.new)
        (L.wire link.new).to_come) }
    ensures end { IfOk result (λ n. n ≡ 0 → ForSome (L.wire link.old).to_come (λ bytes. bytes ≡ [])
        × Rose (L.wire link.old).ends (L.wire link.new).ends) }
    ensures err { OnErr result ((L.wire link.new).to_come ≡ (L.wire link.old).to_come) }

    // What stays, and the cause of a refusal.
    ensures ends { (L.wire link.old).ends ≤ (L.wire link.new).ends }
    ensures sent { (L.wire link.new).sent ≡ (L.wire link.old).sent }
    ensures unsent { (L.wire link.new).unsent ≡ (L.wire link.old).unsent }
    ensures fine { OnOk result ((L.wire link.new).faults ≡ (L.wire link.old).faults) }
    ensures cause { HasCause (L.wire link.old).faults (L.wire link.new).faults result }
{
    link.read(&mut buffer[..most])
}
