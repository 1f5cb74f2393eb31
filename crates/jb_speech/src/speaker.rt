//! The trait of a speaker.
ghost use Rattle.std.specs.Prelude.{◌≡◌, ◌+◌, ◌<◌, ◌≤◌, ◌++◌, ◌∷◌, [], ℕ, List, None, Option, Some, false, true, IfOk, OnErr, OnOk, length, take};
ghost use Rattle.std.specs.Option.{is_some, option_to_list};
ghost use Rattle.jb_limits.specs.declared.limits.TheConstants.{MOST_NAME_BYTES, MOST_SESSION_BYTES};
ghost use Rattle.jb_base.specs.declared.user.User.{User};
ghost use Rattle.jb_conf.specs.declared.board.Board.{Board};
ghost use Rattle.jb_menu.specs.declared.given.Given.{Given};
ghost use Rattle.jb_speech.specs.Laws.{EachCounts, EachReaches, EachWaits, EachStands, EachTalks, TalksGrow, TalksOneWay};
ghost use Rattle.jb_speech.specs.Posture.{HasFailed, Posture, is_line};
ghost use Rattle.jb_speech.specs.declared.end.TalkEnd.{TalkEnd};
ghost use Rattle.jb_speech.specs.declared.request.AreaRequest.{AreaRequest};
ghost use Rattle.jb_speech.specs.declared.request.Request.{Request};
ghost use Rattle.jb_speech.specs.declared.request.Request.TheVariants as request_kind;

use crate::end::TalkEnd;
use crate::request::{AreaRequest, Request};
use jb_base::{OutOfMemory, User};
use jb_conf::Board;
use jb_menu::Given;
use std::alloc::Global;

/// Bytes that are wanted at a time, at most.
pub const MOST_PIECE_BYTES: usize = 4_096;

/// How much of a piece was heard, and what is asked then.
#[derive(Drop)]
pub struct Heard {
    /// The first bytes of the piece, so many.
    pub taken: usize,
    /// What is asked. Where it is nothing, the whole piece was heard.
    pub request: Option<Request>,
}

/// One side of a conversation on a board.
pub trait Speaker {
    /// How many bytes it has taken, what it owes, and how it goes on.
    ghost posture: { Self → Posture };

    /// Over these bytes, with these answers, this is sent and asked, and it ends so.
    ghost talks: { Board → List ℕ → List Given → List ℕ → List Request → TalkEnd → Type 0 };

    /// Over these bytes and answers, these bytes and requests were handed out, and the rest stands ready: whatever comes later.
    ghost has_talked: { Board → Self → List ℕ → List Given → List ℕ → List Request → Type 0 };

    /// It is one on this board, and waits for an answer exactly where it has handed out a request.
    ghost hands_out: { Board → Self → Option Request → Type 0 };

    /// For whom an area is asked, where the board has that user.
    ghost user_of: { Board → AreaRequest → Option User };

    /// To how many nodes pages are sent, from the first on; where it is 0 none are sent or taken.
    ghost reach: { Board → ℕ };

    /// One that begins.
    fn start(alloc: Global, board: &Board) -> Result<Self, OutOfMemory>
        ensures fits { IfOk result (λ speaker. has_talked board.now speaker [] [] [] []) }
        ensures hands { IfOk result (λ speaker. hands_out board.now speaker None) };

    /// Hears a piece, as far as the byte at which something is asked. Bytes behind the end are heard, and lead to nothing.
    fn hear(&mut self, alloc: Global, board: &Board, piece: &[u8]) -> Result<Heard, OutOfMemory>
        requires hands { hands_out board.now self.old None }
        requires room { (posture self.old).taken + length piece.now ≤ MOST_SESSION_BYTES }

        // What is handed out is what the conversation over the bytes heard says, with the answers so far.
        ensures fits { IfOk result (λ heard.
            (bytes sent : List ℕ) (answers : List Given) (asked : List Request)
            → has_talked board.now self.old bytes answers sent asked
            → has_talked board.now self.new (bytes ++ take heard.taken piece.now) answers sent
            (asked ++ option_to_list heard.request)) }
        ensures hands { IfOk result (λ heard. hands_out board.now self.new heard.request) }

        // The whole piece is heard where nothing is asked, and always some of it.
        ensures within { IfOk result (λ heard. heard.taken ≤ length piece.now) }
        ensures all { IfOk result (λ heard. heard.request ≡ None → heard.taken ≡ length piece.now) }
        ensures some { IfOk result (λ heard. 0 < length piece.now → 0 < heard.taken) }
        ensures counted { IfOk result (λ heard. (posture self.new).taken ≡ (posture self.old).taken + heard.taken) }

        // Want of memory.
        ensures err { OnErr result (HasFailed (posture self.new)) };

    /// Takes the answer to the last request, and gives the next one.
    fn answer(
        &mut self,
        alloc: Global,
        board: &Board,
        given: &Given,
    ) -> Result<Option<Request>, OutOfMemory>
        requires waits { (request : Request) × hands_out board.now self.old (Some request) }

        // What is handed out is what the conversation over the bytes so far says, with this answer more.
        ensures fits { IfOk result (λ request.
            (bytes sent : List ℕ) (answers : List Given) (asked : List Request)
            → has_talked board.now self.old bytes answers sent asked
            → has_talked board.now self.new bytes (answers ++ given.now ∷ []) sent
            (asked ++ option_to_list request)) }
        ensures hands { IfOk result (λ request. hands_out board.now self.new request) }
        ensures counted { OnOk result ((posture self.new).taken ≡ (posture self.old).taken) }

        // What a line asks comes to an end.
        ensures fewer { IfOk result (λ request. is_line given.now ≡ false → is_some request ≡ true
            → (posture self.new).most_asked board.now < (posture self.old).most_asked board.now) }

        // Want of memory.
        ensures err { OnErr result (HasFailed (posture self.new)) };

    /// The user for whom an area is asked, which the board has.
    fn user_of<'a>(&'a self, board: &'a Board, request: &AreaRequest) -> &'a User
        requires hands { hands_out board.now self.now (Some (request_kind.Area request.now)) }
        ensures is { user_of board.now request.now ≡ Some result.now }
        ensures name { length result.now.name ≤ MOST_NAME_BYTES }
        ensures area { request.now.area < length board.now.areas };

    /// What is to be sent now.
    fn owed(&self) -> &[u8]
        ensures { result.now ≡ (posture self.now).owed };

    /// All that was owed is sent.
    fn was_sent(&mut self)
        ensures none { (posture self.new).owed ≡ [] }
        ensures counted { (posture self.new).taken ≡ (posture self.old).taken }
        ensures most { (posture self.new).most_asked ≡ (posture self.old).most_asked }
        ensures hands { (board : Board) (request : Option Request)
            → hands_out board self.old request → hands_out board self.new request }
        ensures fits { (board : Board) (bytes sent : List ℕ) (answers : List Given) (asked : List Request)
            → has_talked board self.old bytes answers sent asked
            → has_talked board self.new bytes answers (sent ++ (posture self.old).owed) asked };

    /// How many bytes are wanted now, at most: none before all that is owed is sent, and none from the end on.
    fn wants(&self) -> usize
        ensures is { result ≡ (posture self.now).wanted }
        ensures few { result ≤ MOST_PIECE_BYTES }
        ensures goes_on { 0 < result → ((posture self.now).owed ≡ []) × ((posture self.now).end ≡ TalkEnd.Hangup) }
        ensures over { result ≡ 0 → (posture self.now).owed ≡ [] → (posture self.now).end ≡ TalkEnd.Hangup → ⊥ }
        ensures room { (posture self.now).taken + result ≤ MOST_SESSION_BYTES };

    /// How it ends, where no more bytes and answers come.
    fn end(&self) -> TalkEnd
        ensures { result ≡ (posture self.now).end };

    /// The name whose password is awaited, as it was typed, for the lines that an operator is told.
    fn name_tried(&self) -> Option<&[u8]> {
        None
    }

    /// Whether a user is logged in, for those too.
    fn is_logged_in(&self) -> bool {
        false
    }

    /// Over any bytes, with any answers, there is exactly one conversation; with more of them it only says and asks more; a speaker
    /// stands at all times where it ends, and sends pages only to nodes that it reaches.
    fn laws()
        ensures some { EachTalks talks }
        ensures same { TalksOneWay talks }
        ensures grows { TalksGrow talks }
        ensures stands { EachStands talks posture has_talked }
        ensures counts { EachCounts posture has_talked }
        ensures waits { EachWaits posture hands_out }
        ensures reaches { EachReaches reach hands_out };
}
