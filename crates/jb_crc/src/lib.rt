//! The CRC of the JAM message base proposal (revision 1, "CRC"): CRC-32, reflected, begun with all bits set and not
//! complemented, over bytes whose capitals `A` to `Z` count as `a` to `z`.
//!
//! The layers above may rely on [`jam_crc`] giving what the bit-by-bit definition gives; the tables and the steps of eight
//! bytes are this crate's own affair.
#![tactic(auto)]

mod remainder;
mod tables;

pub use remainder::jam_crc;
