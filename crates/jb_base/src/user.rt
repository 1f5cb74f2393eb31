//! A caller, as the areas see one.

use jb_bytes::Name;

/// A user: a name of 1 to 36 bytes, a number that lastread records carry, and a level that an area's rules ask for.
#[derive(Debug, Drop)]
pub struct User {
    pub name: Name,
    pub id: u32,
    pub level: u8,
}
