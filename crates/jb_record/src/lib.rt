//! The fixed records of a JAM message base, as bytes: the fixed header of .JHR, a message header, an index record and a
//! lastread record (JAM, "Header file", "Message header", "Index file", "Lastread file").
//!
//! The layer above may rely on this: `encode_*` gives exactly the bytes of the tables in `specs/`, `decode_*` gives the
//! value of which these are the bytes, and `None` exactly where the length, the signature or the Revision is another.
#![tactic(auto)]

mod fixed;
mod index;
mod lastread;
mod message;
mod signature;

pub use fixed::{FIXED_HEADER_BYTES, FixedHeader, RESERVED_BYTES, decode_fixed, encode_fixed};
pub use index::{EMPTY_SLOT, INDEX_RECORD_BYTES, IndexRecord, decode_index, encode_index};
pub use lastread::{MARK_RECORD_BYTES, MarkRecord, decode_mark, encode_mark};
pub use message::{MESSAGE_HEADER_BYTES, MessageHeader, REVISION, decode_message, encode_message};
