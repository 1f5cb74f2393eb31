//! The limits of a base, of a posted message and of a board.

/// Slots in an area, killed and empty ones among them.
pub const MOST_SLOTS: u32 = 1_000_000;
/// Slots of all areas of a board together.
pub const MOST_SLOTS_TOGETHER: u32 = 4_200_000;
/// Lastread records in an area.
pub const MOST_MARKS: u32 = 65_000;

/// Bytes of .JHR, the file of headers.
pub const HEADERS_CEILING: u64 = 536_870_912;
/// Bytes of .JDT, the file of texts.
pub const TEXTS_CEILING: u64 = 1_073_741_824;
/// Bytes of .JDX, the index: 1,000,000 records of 8 bytes.
pub const INDEX_CEILING: u64 = 8_000_000;
/// Bytes of .JLR, the lastread file: 65,000 records of 16 bytes.
pub const LASTREAD_CEILING: u64 = 1_040_000;
/// Bytes of .JNL, the journal.
pub const JOURNAL_CEILING: u64 = 1_073_741_824;
/// Bytes of .NDT, the packer's shadow of the texts.
pub const SHADOW_CEILING: u64 = 2_147_483_648;

/// Bytes of .JHR that a journal of version 1 may set.
pub const FIRST_HEADERS_CEILING: u64 = 134_217_728;
/// Bytes of .JDT that a journal of version 1 may set.
pub const FIRST_TEXTS_CEILING: u64 = 67_108_864;
/// Bytes of .JDX that a journal of version 1 may set: 65,000 records of 8 bytes.
pub const FIRST_INDEX_CEILING: u64 = 520_000;

/// Bytes of the subfields of one message, SubfieldLen (JAM, "Message header").
pub const MOST_SUBFIELD_BYTES: u32 = 262_144;
/// Bytes of one text, TxtLen (JAM, "Message header").
pub const MOST_TEXT_BYTES: u32 = 1_048_576;

/// The greatest number that a posted message has.
pub const LAST_POSTED_NUMBER: u32 = 16_777_215;
/// Bytes of a posted name.
pub const MOST_NAME_BYTES: usize = 36;
/// Bytes of a posted subject.
pub const MOST_SUBJECT_BYTES: usize = 72;
/// Bytes of a posted text.
pub const MOST_POSTED_TEXT_BYTES: usize = 16_384;
/// Bytes of a MSGID that a posted REPLYID copies.
pub const MOST_COPIED_MSGID_BYTES: usize = 4_096;
/// Bytes of an area's address.
pub const MOST_ADDRESS_BYTES: usize = 24;

/// Bytes of a typed line.
pub const MOST_LINE_BYTES: usize = 78;
/// Bytes that one session takes.
pub const MOST_SESSION_BYTES: u64 = 16_777_216;

/// Nodes of a board.
pub const MOST_NODES: u32 = 32;
/// Areas of a board.
pub const MOST_AREAS: u32 = 255;
/// Users of a board.
pub const MOST_USERS: u32 = 1_024;

/// Entries at which the history of an area takes no further call; the call that reached it may have left one more.
pub const MOST_ENTRIES: u64 = 4_611_686_018_427_387_904;
