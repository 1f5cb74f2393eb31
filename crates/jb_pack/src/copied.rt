//! Texts that stand in .NDT already.
ghost use Rattle.std.specs.Prelude.{◌≡◌, ◌≤◌, length, replicate, slice_index_or};
ghost use Rattle.jb_pack.specs.Shadow.{left_of, not_copied};

use jb_state::LoadedSlot;

/// A text that was copied: where it began in .JDT, how many bytes it has, and where it begins in .NDT.
#[derive(Clone, Copy)]
pub(crate) struct CopiedText {
    pub(crate) from: u32,
    pub(crate) len: u32,
    pub(crate) at: u32,
}

/// None: a copy of no bytes.
pub(crate) const NOT_COPIED: CopiedText = CopiedText {
    from: 0,
    len: 0,
    at: 0,
};

/// The copy of the text of the slot at a place, where there is one.
pub(crate) fn copy_of(copies: &[CopiedText], place: usize) -> CopiedText
    ensures { result ≡ slice_index_or copies.now place not_copied }
{
    if place < copies.len() {
        copies[place]
    } else {
        NOT_COPIED
    }
}

/// How many bytes of the slot's live text are left to copy: none, where this is a copy of them from where they stand now.
pub(crate) fn left_of(copied: CopiedText, slot: &LoadedSlot) -> u32
    ensures { result ≡ left_of copied slot.now }
{
    let LoadedSlot::Live(message) = slot else {
        return 0;
    };
    if copied.from == message.text_at && copied.len == message.text_len {
        0
    } else {
        message.text_len
    }
}

/// Forgets all copies.
pub(crate) fn forget(copies: &mut [CopiedText])
    ensures { copies.new ≡ replicate (length copies.old) not_copied }
{
    for copied in copies.iter_mut() {
        *copied = NOT_COPIED;
    }
}
