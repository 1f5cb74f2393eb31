//! One user of the settings file, read behind those before it.
ghost use Rattle.std.specs.Prelude.{◌≡◌};
ghost use Rattle.toml.specs.View.{table_view};
ghost use Rattle.jb_conf.specs.Faults.{AnswersOrMemory};
ghost use Rattle.jb_conf.specs.Users.{has_id, has_user_name, user_fault, user_of};

use crate::document::unrepeated;
use crate::login::has_name;
use crate::rows::{digest, number, printable, short};
use crate::{BoardUser, ConfError, Field, UserKey};
use jb_base::{Bytes, MOST_NAME_BYTES, Name, User};
use std::alloc::Global;
use toml::Table;

/// The greatest number of a user.
const LAST_ID: u32 = 65_535;
/// The highest level.
const HIGHEST_LEVEL: u32 = 255;
/// Bytes of a salt.
const MOST_SALT_BYTES: usize = 64;

fn has_user_name(name: &[u8], users: &[BoardUser]) -> bool
    ensures { result ≡ has_user_name name.now users.now }
{
    users.iter().any(|user| has_name(user, name))
}

fn has_id(id: u32, users: &[BoardUser]) -> bool
    ensures { result ≡ has_id id users.now }
{
    users.iter().any(|user| user.user.id == id)
}

/// The user at this place, behind those before it.
pub fn user_of(
    alloc: Global,
    table: &Table,
    before: &[BoardUser],
    place: u32,
) -> Result<BoardUser, ConfError>
    ensures { AnswersOrMemory (user_fault before.now place (table_view table.now))
        (λ user. user ≡ user_of place (table_view table.now)) result }
{
    let name_field = Field::User(place, UserKey::Name);
    let id_field = Field::User(place, UserKey::Id);
    let level_field = Field::User(place, UserKey::Level);
    let salt_field = Field::User(place, UserKey::Salt);
    let name = printable(table, name_field, MOST_NAME_BYTES)?;
    unrepeated(has_user_name(name.as_bytes(), before), name_field)?;
    let id = number(table, id_field, None, 1, LAST_ID)?;
    unrepeated(has_id(id, before), id_field)?;
    let level = number(table, level_field, None, 0, HIGHEST_LEVEL)?;
    let salt = short(table, salt_field, MOST_SALT_BYTES)?;
    let digest = digest(table, place)?;
    Ok(BoardUser {
        user: User {
            name: Name::copy(alloc, name.as_bytes())?,
            id,
            level: level as u8,
        },
        salt: Bytes::copy(alloc, salt.as_bytes())?,
        digest,
    })
}
