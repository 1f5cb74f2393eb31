//! The fields of a message that its header carries.

/// The header's fields, but for its lengths, its place of the text and its number: TimesRead, MSGIDcrc, REPLYcrc, ReplyTo,
/// Reply1st, ReplyNext, DateWritten, DateReceived, DateProcessed, Attribute, Attribute2, PasswordCRC and Cost of the
/// standard, and the two reserved bytes. Dates are seconds since 1970; 0 is no message and no date.
#[derive(Clone, Copy, Debug, PartialEq, Eq)]
pub struct Head {
    pub reserved: u16,
    pub times_read: u32,
    pub msgid_crc: u32,
    pub reply_crc: u32,
    pub reply_to: u32,
    pub reply_first: u32,
    pub reply_next: u32,
    pub written: u32,
    pub received: u32,
    pub processed: u32,
    pub attribute: u32,
    pub attribute2: u32,
    pub password: u32,
    pub cost: u32,
}
