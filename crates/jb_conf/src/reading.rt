//! The settings file, read whole.
ghost use Rattle.std.specs.Prelude.{◌≡◌, ◌≤◌, ◌⊎◌, [], true, length, Err};
ghost use Rattle.toml.specs.Data.{Members};
ghost use Rattle.toml.specs.Errors.{IsMemory};
ghost use Rattle.toml.specs.View.{table_view};
ghost use Rattle.jb_conf.specs.Areas.{areas_fault, areas_of};
ghost use Rattle.jb_conf.specs.Faults.{AnswersOrMemory, ValueOrFault};
ghost use Rattle.jb_conf.specs.Rows.{given_number, news_port_fault};
ghost use Rattle.jb_conf.specs.Settings.{AreSettingsUnlessMemory, IsDocument, IsNoDocument, ReadsSettings};
ghost use Rattle.jb_conf.specs.Tables.{are_all_tables, tables_view};
ghost use Rattle.jb_conf.specs.Users.{users_fault, users_of};

use crate::area::area_of;
use crate::document::{found, unrepeated, within};
use crate::rows::{address, level, minutes, number, printable};
use crate::tables::{entries_of, tables};
use crate::unknown::unknown_of;
use crate::user::user_of;
use crate::{Board, BoardAreas, BoardKey, BoardUsers, ConfError, Field};
use jb_base::{
    Bytes, MOST_ADDRESS_BYTES, MOST_AREAS, MOST_NAME_BYTES, MOST_NODES, MOST_USERS, Name,
};
use std::alloc::Global;
use toml::{Table, Value};

/// The port of a board that does not say one.
const USUAL_PORT: u32 = 2_323;
/// The highest port.
const LAST_PORT: u32 = 65_535;
/// Minutes between two packs of a board that does not say them.
const USUAL_PACK_MINUTES: u32 = 60;
/// The most minutes between two packs.
const MOST_PACK_MINUTES: u32 = 10_080;

/// The areas that these tables say.
fn areas_of(alloc: Global, values: &[Value], address: &[u8]) -> Result<BoardAreas, ConfError>
    requires each { are_all_tables values.now ≡ true }
    requires few { length values.now ≤ 255 }
    ensures { AnswersOrMemory (areas_fault address.now [] (tables_view values.now))
        (λ areas. areas ≡ areas_of address.now [] (tables_view values.now)) result }
{
    let mut areas = BoardAreas::new(alloc);
    let mut together = 0;
    for value in values {
        let table = entries_of(value);
        let before = areas.as_slice();
        let place = before.len() as u32 + 1;
        let area = area_of(alloc, table, address, before, place, together)?;
        together += area.rules.slots;
        areas.push(area)?;
    }
    Ok(areas)
}

/// The users that these tables say.
fn users_of(alloc: Global, values: &[Value]) -> Result<BoardUsers, ConfError>
    requires each { are_all_tables values.now ≡ true }
    requires few { length values.now ≤ 1024 }
    ensures { AnswersOrMemory (users_fault [] (tables_view values.now))
        (λ users. users ≡ users_of [] (tables_view values.now)) result }
{
    let mut users = BoardUsers::new(alloc);
    for value in values {
        let table = entries_of(value);
        let before = users.as_slice();
        let place = before.len() as u32 + 1;
        let user = user_of(alloc, table, before, place)?;
        users.push(user)?;
    }
    Ok(users)
}

/// Where news readers reach a board with this port and so many nodes; nothing where the document does not say it.
fn news_port(table: &Table, callers: u32, nodes: u32) -> Result<Option<u16>, ConfError>
    ensures { ValueOrFault (news_port_fault callers nodes (table_view table.now))
        (λ port. port ≡ given_number (Field.Board BoardKey.NewsPort) (table_view table.now)) result }
{
    let field = Field::Board(BoardKey::NewsPort);
    let port = number(table, field, Some(0), 0, LAST_PORT)?;
    match found(table, field) {
        None => Ok(None),
        Some(_) => {
            within(nodes < MOST_NODES, field)?;
            unrepeated(port == callers, field)?;
            Ok(Some(port as u16))
        }
    }
}

/// The board that a document says.
fn board_of(alloc: Global, table: &Table) -> Result<Board, ConfError>
    ensures { AreSettingsUnlessMemory (table_view table.now) result }
{
    let name = printable(table, Field::Board(BoardKey::Name), MOST_NAME_BYTES)?;
    let address = address(table, Field::Board(BoardKey::Address), MOST_ADDRESS_BYTES)?;
    let port = number(
        table,
        Field::Board(BoardKey::Port),
        Some(USUAL_PORT),
        0,
        LAST_PORT,
    )?;
    let nodes = number(table, Field::Board(BoardKey::Nodes), Some(1), 1, MOST_NODES)?;
    let offset = minutes(table, Field::Board(BoardKey::Offset))?;
    let pack_minutes = number(
        table,
        Field::Board(BoardKey::PackMinutes),
        Some(USUAL_PACK_MINUTES),
        0,
        MOST_PACK_MINUTES,
    )?;
    let news_port = news_port(table, port, nodes)?;
    let news_level = level(table, Field::Board(BoardKey::NewsLevel), 0)?;
    let area_tables = tables(table, Field::Board(BoardKey::Areas), MOST_AREAS as usize)?;
    let user_tables = tables(table, Field::Board(BoardKey::Users), MOST_USERS as usize)?;
    let areas = areas_of(alloc, area_tables, address.as_bytes())?;
    let users = users_of(alloc, user_tables)?;
    let unknown = unknown_of(alloc, table, area_tables, user_tables)?;
    Ok(Board {
        name: Name::copy(alloc, name.as_bytes())?,
        address: Bytes::copy(alloc, address.as_bytes())?,
        port: port as u16,
        nodes,
        offset,
        pack_minutes,
        news_port,
        news_level,
        areas,
        users,
        unknown,
    })
}

/// The board that a settings file says. The order of the tests is that of the table: the document, the fields of the board,
/// those of each area in turn, those of each user in turn; of one field that it is there, its kind, its range, and that it
/// is no earlier one's.
pub fn read(alloc: Global, bytes: &[u8]) -> Result<Board, ConfError>
    ensures cause { ReadsSettings bytes.now result }

    // Each file has one answer.
    ensures settings { (entries : Members) → IsDocument bytes.now entries
        → AreSettingsUnlessMemory entries result }
    ensures not_toml { IsNoDocument bytes.now
        → (result ≡ Err ConfError.NotToml) ⊎ (result ≡ Err ConfError.OutOfMemory) }
    ensures only_not_toml { result ≡ Err ConfError.NotToml → IsNoDocument bytes.now }
{
    read_document(alloc, bytes)
}

/// The board of the document that the bytes write.
fn read_document(alloc: Global, bytes: &[u8]) -> Result<Board, ConfError>
    ensures { ReadsSettings bytes.now result }
{
    match toml::table_from_slice(alloc, bytes) {
        Ok(table) => board_of(alloc, &table),
        Err(error) => Err(refusal_of(&error)),
    }
}

/// Why bytes are refused that are not read as a document.
fn refusal_of(error: &toml::de::Error) -> ConfError
    ensures memory { (result ≡ ConfError.OutOfMemory)
        ⊎ ((result ≡ ConfError.NotToml) × ¬ IsMemory error.now) }
{
    if error.is_memory() {
        ConfError::OutOfMemory
    } else {
        ConfError::NotToml
    }
}
