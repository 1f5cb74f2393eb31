//! What a settings file says of a board.
ghost use Rattle.jb_conf.specs.InRange.{IsInRange};

use crate::{BoardAreas, BoardUsers, Text, Texts};
use jb_base::{AreaRules, Bytes, Name, User};

/// A board, as its settings file says it.
pub struct Board {
    /// What it calls itself: 1 to 36 printable bytes.
    pub name: Name,
    /// What stands in front in each MSGID: 1 to 24 bytes.
    pub address: Bytes,
    /// Where callers reach it.
    pub port: u16,
    /// How many callers it takes at once: 1 to 32.
    pub nodes: u32,
    /// Minutes between its local time and UTC: -840 to 840.
    pub offset: i32,
    /// Minutes between two packs, at most 10,080; 0 for none.
    pub pack_minutes: u32,
    /// Where news readers reach it; nothing for no news. Beside it there are at most 31 nodes.
    pub news_port: Option<u16>,
    /// The level of news readers.
    pub news_level: u8,
    /// Its areas: 1 to 255.
    pub areas: BoardAreas,
    /// Those who may log in: 1 to 1,024.
    pub users: BoardUsers,
    /// The names of the keys that stand in the file and are no field's, as `area.3.raed`.
    pub unknown: Texts,
    /// Each value is in its range. Whoever makes a board shows it.
    pub ghost in_range: { IsInRange name address nodes offset pack_minutes news_port news_level areas users },
}

// Whoever lets go of one does so in one call.
impl Drop for Board {
    fn drop(self) {
        let Board {
            name: _name,
            address: _address,
            port: _port,
            nodes: _nodes,
            offset: _offset,
            pack_minutes: _pack_minutes,
            news_port: _news_port,
            news_level: _news_level,
            areas: _areas,
            users: _users,
            unknown: _unknown,
        } = self;
    }
}

/// An area of a board.
pub struct BoardArea {
    /// What the menus call it: 1 to 24 printable bytes.
    pub name: Name,
    /// The folder of its files: 1 to 1,024 bytes.
    pub dir: Text,
    /// The name of its files without extensions: 1 to 200 bytes.
    pub base: Text,
    /// Who may do what there. The ordinal is its place, counted from 1.
    pub rules: AreaRules,
}

// Whoever lets go of one does so in one call.
impl Drop for BoardArea {
    fn drop(self) {
        let BoardArea {
            name: _name,
            dir: _dir,
            base: _base,
            rules: _rules,
        } = self;
    }
}

/// Someone who may log in.
pub struct BoardUser {
    /// The name, the number and the level.
    pub user: User,
    /// What stands before the password in what is digested: at most 64 bytes.
    pub salt: Bytes,
    /// The SHA-256 of salt and password.
    pub digest: [u8; 32],
}

// Whoever lets go of one does so in one call.
impl Drop for BoardUser {
    fn drop(self) {
        let BoardUser {
            user: _user,
            salt: _salt,
            digest: _digest,
        } = self;
    }
}
