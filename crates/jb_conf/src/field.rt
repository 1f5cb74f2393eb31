//! The fields of the settings file, and how they are named.
ghost use Rattle.std.specs.Prelude.{◌≡◌, ◌≤◌, ◌++◌, length};
ghost use Rattle.jb_conf.specs.Names.{setting_name, field_key, owned_name};

use arrayvec::ArrayString;
use itoa::Buffer;
use std::fmt;

/// The name of a field: at most 32 bytes. It takes no memory.
pub type FieldName = ArrayString<32>;

/// A key of the board itself. The fields are tested in this order.
#[derive(Clone, Copy, Debug, PartialEq, Eq)]
pub enum BoardKey {
    /// `name`: what the board calls itself.
    Name,
    /// `address`: what stands in front in each MSGID (FTS-0009, "MSGID").
    Address,
    /// `port`: where callers reach it.
    Port,
    /// `nodes`: how many callers it takes at once.
    Nodes,
    /// `offset`: minutes between its local time and UTC, east of Greenwich above 0.
    Offset,
    /// `pack_minutes`: minutes between two packs; 0 for none.
    PackMinutes,
    /// `news_port`: where news readers reach it; absent for no news.
    NewsPort,
    /// `news_level`: the level of news readers.
    NewsLevel,
    /// `area`: the areas, as an array of tables.
    Areas,
    /// `user`: the users, as an array of tables.
    Users,
}

/// A key of an area, in the order of the tests.
#[derive(Clone, Copy, Debug, PartialEq, Eq)]
pub enum AreaKey {
    /// `name`: what the menus call it.
    Name,
    /// `dir`: the folder of its files.
    Dir,
    /// `base`: the name of its files, without their extensions.
    Base,
    /// `kind`: `local` or `echo`.
    Kind,
    /// `read`: the least level that reads.
    Read,
    /// `post`: the least level that posts.
    Post,
    /// `sysop`: the least level that tends it.
    Sysop,
    /// `slots`: the most messages that it holds.
    Slots,
}

/// A key of a user, in the order of the tests.
#[derive(Clone, Copy, Debug, PartialEq, Eq)]
pub enum UserKey {
    /// `name`: the name that logs in.
    Name,
    /// `id`: the number that lastread records carry.
    Id,
    /// `level`: what the levels of an area are compared with.
    Level,
    /// `salt`: what stands before the password in what is digested.
    Salt,
    /// `digest`: the SHA-256 of salt and password, in hexadecimal digits.
    Digest,
}

/// A field of the settings file. Areas and users are counted from 1.
#[derive(Clone, Copy, Debug, PartialEq, Eq)]
pub enum Field {
    Board(BoardKey),
    Area(u32, AreaKey),
    User(u32, UserKey),
}

fn board_key(key: BoardKey) -> &'static str
    ensures { result.now ≡ field_key (Field.Board key) }
{
    match key {
        BoardKey::Name => "name",
        BoardKey::Address => "address",
        BoardKey::Port => "port",
        BoardKey::Nodes => "nodes",
        BoardKey::Offset => "offset",
        BoardKey::PackMinutes => "pack_minutes",
        BoardKey::NewsPort => "news_port",
        BoardKey::NewsLevel => "news_level",
        BoardKey::Areas => "area",
        BoardKey::Users => "user",
    }
}

fn area_key(key: AreaKey) -> &'static str
    ensures { result.now ≡ field_key (Field.Area 1 key) }
{
    match key {
        AreaKey::Name => "name",
        AreaKey::Dir => "dir",
        AreaKey::Base => "base",
        AreaKey::Kind => "kind",
        AreaKey::Read => "read",
        AreaKey::Post => "post",
        AreaKey::Sysop => "sysop",
        AreaKey::Slots => "slots",
    }
}

fn user_key(key: UserKey) -> &'static str
    ensures { result.now ≡ field_key (Field.User 1 key) }
{
    match key {
        UserKey::Name => "name",
        UserKey::Id => "id",
        UserKey::Level => "level",
        UserKey::Salt => "salt",
        UserKey::Digest => "digest",
    }
}

/// The name of a field of an area or of a user.
pub(crate) fn owned_name(owner: &str, place: u32, key: &str) -> FieldName
    requires owner { length owner.now ≤ 5 }
    requires key { length key.now ≤ 12 }
    ensures { result.bytes ≡ owned_name owner.now place key.now }
{
    let mut name = FieldName::new();
    let mut digits = Buffer::new();
    name.push_str(owner);
    name.push_str(digits.format(place));
    name.push_str(".");
    name.push_str(key);
    name
}

impl Field {
    /// Its key in its table.
    pub fn key(self) -> &'static str
        ensures key { result.now ≡ field_key self }
        ensures short { length result.now ≤ 12 }
    {
        match self {
            Field::Board(key) => board_key(key),
            Field::Area(_, key) => area_key(key),
            Field::User(_, key) => user_key(key),
        }
    }

    /// Its name: the key, behind `area.` or `user.` with the place in digits, as in `area.1.read`.
    pub fn name(self) -> FieldName
        ensures { result.bytes ≡ setting_name self }
    {
        match self {
            Field::Board(_) => {
                let mut name = FieldName::new();
                name.push_str(self.key());
                name
            }
            Field::Area(place, _) => owned_name("area.", place, self.key()),
            Field::User(place, _) => owned_name("user.", place, self.key()),
        }
    }
}

impl fmt::Display for Field {
    fn fmt<W: fmt::Write>(&self, f: &mut fmt::Formatter<W>) -> fmt::Result {
        f.write_str(self.name().as_str())
    }
}
