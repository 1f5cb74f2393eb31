//! The header that one more reply changes beside its own.

/// The header that one more reply changes beside its own.
#[derive(Clone, Copy, PartialEq, Eq)]
pub enum Spliced {
    /// None: the message is no reply.
    None,
    /// Reply1st of the parent, which has no live reply yet.
    First { of: u32 },
    /// ReplyNext of the parent's last live reply.
    After { of: u32 },
}
