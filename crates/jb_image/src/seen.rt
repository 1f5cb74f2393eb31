//! What is kept of a slot from the first look at its header.

ghost use Rattle.std.specs.Prelude.{◌≡◌, IfSome};
ghost use Rattle.jb_disk.specs.Files.{Files};
ghost use Rattle.jb_record.specs.declared.index.IndexRecord.{IndexRecord};
ghost use Rattle.jb_image.specs.Reading.{IsEndBehind, IsSeenAs, extent_seen};

use crate::extent::Extent;
use jb_record::{EMPTY_SLOT, MESSAGE_HEADER_BYTES, MessageHeader};

/// A live message whose header was read, and whose subfields lie where they must: the UserCRC of its index record, and
/// the place and the fields of its header.
#[derive(Clone, Copy)]
pub(crate) struct SeenMessage {
    pub(crate) owner: u32,
    pub(crate) header_at: u32,
    pub(crate) header: MessageHeader,
}

/// A slot whose header was read.
#[derive(Clone, Copy)]
pub(crate) enum SeenSlot {
    Empty,
    Killed { header_at: u32 },
    Live(SeenMessage),
}

impl SeenSlot {
    /// The place of .JHR that its index record names.
    pub(crate) fn named(&self) -> u32
        ensures { (files : Files) (entry : IndexRecord) → IsSeenAs files entry self.now
            → entry.offset ≡ result }
    {
        match self {
            SeenSlot::Empty => EMPTY_SLOT,
            SeenSlot::Killed { header_at } => *header_at,
            SeenSlot::Live(message) => message.header_at,
        }
    }

    /// The bytes of .JHR that its header takes.
    pub(crate) fn extent(&self) -> Extent
        ensures { result ≡ extent_seen self.now }
    {
        match self {
            SeenSlot::Empty => Extent { start: 0, len: 0 },
            SeenSlot::Killed { header_at } => Extent {
                start: *header_at as u64,
                len: MESSAGE_HEADER_BYTES as u64,
            },
            SeenSlot::Live(message) => Extent {
                start: message.header_at as u64,
                len: MESSAGE_HEADER_BYTES as u64 + message.header.subfields as u64,
            },
        }
    }

    /// Where the headers end with this one behind those that end here, or nothing where it begins before that.
    pub(crate) fn end_behind(&self, end: u64) -> Option<u64>
        ensures { IfSome result (IsEndBehind (extent_seen self.now) end) }
    {
        let (begin, len) = match self {
            SeenSlot::Empty => return Some(end),
            SeenSlot::Killed { header_at } => (*header_at as u64, MESSAGE_HEADER_BYTES as u64),
            SeenSlot::Live(message) => (
                message.header_at as u64,
                MESSAGE_HEADER_BYTES as u64 + message.header.subfields as u64,
            ),
        };
        if begin < end {
            return None;
        }
        Some(begin + len)
    }
}
