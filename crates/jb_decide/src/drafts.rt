//! What a user writes, to be posted or in the place of a message's subject and text.
ghost use Rattle.std.specs.Prelude.{◌≡◌, Some, length};
ghost use Rattle.jb_model.specs.Post.{draft_refusal, parts_refusal};
ghost use Rattle.jb_decide.specs.Draft.{draft_of};

use jb_base::{MOST_NAME_BYTES, MOST_POSTED_TEXT_BYTES, MOST_SUBJECT_BYTES};
use jb_model::{Field, Reply};

/// What a user wrote, to whom, in reply to which number or to 0, and whether it is private.
#[derive(Clone, Copy)]
pub struct LentDraft<'a> {
    pub to: &'a [u8],
    pub subject: &'a [u8],
    pub text: &'a [u8],
    pub reply_to: u32,
    pub private: bool,
}

/// The message that is to be edited, and what a user wrote in the place of its subject and its text.
#[derive(Clone, Copy)]
pub struct LentEdit<'a> {
    pub number: u32,
    pub subject: &'a [u8],
    pub text: &'a [u8],
}

/// The refusal of a part that is too long.
fn too_long(field: Field, bytes: &[u8]) -> Option<Reply>
    ensures { result ≡ Some (Reply.TooLong field (length bytes.now)) }
{
    Some(Reply::TooLong {
        field,
        length: bytes.len() as u64,
    })
}

/// Why a subject and a text are refused: one is too long.
pub(crate) fn long_part(subject: &[u8], text: &[u8]) -> Option<Reply>
    ensures { result ≡ parts_refusal subject.now text.now }
{
    if subject.len() > MOST_SUBJECT_BYTES {
        too_long(Field::Subject, subject)
    } else if text.len() > MOST_POSTED_TEXT_BYTES {
        too_long(Field::Text, text)
    } else {
        None
    }
}

/// Why a draft is refused: a part of it is empty or too long.
pub(crate) fn unfit(draft: LentDraft<'_>) -> Option<Reply>
    ensures { result ≡ draft_refusal (draft_of draft.entry) }
{
    if draft.to.is_empty() {
        Some(Reply::EmptyName { field: Field::To })
    } else if draft.to.len() > MOST_NAME_BYTES {
        too_long(Field::To, draft.to)
    } else {
        long_part(draft.subject, draft.text)
    }
}
