//! The keys of a settings file that no field has: a slip of the pen, or a key of a later board.
ghost use Rattle.std.specs.Prelude.{◌≡◌, ◌≤◌, ◌++◌, true, length, bytes_eq, IfOk, OnOk};
ghost use Rattle.std.specs.List.{list_any};
ghost use Rattle.toml.specs.View.{table_view};
ghost use Rattle.jb_conf.specs.Names.{field_key};
ghost use Rattle.jb_conf.specs.Tables.{are_all_tables, tables_view};
ghost use Rattle.jb_conf.specs.Unknown.{has_key, owner_of, unknown_in, unknown_in_each};
ghost use Rattle.jb_conf.specs.declared.unknown.Sort.TheVariants.{OfArea, OfBoard, OfUser};

use crate::field::owned_name;
use crate::tables::entries_of;
use crate::{AreaKey, BoardKey, Field, FieldName, Text, Texts, UserKey};
use jb_base::OutOfMemory;
use std::alloc::Global;
use toml::{Table, Value};

/// What a table of the document says.
#[derive(Clone, Copy, Debug, PartialEq, Eq)]
pub(crate) enum Sort {
    OfBoard,
    OfArea,
    OfUser,
}

/// Whether one of these fields has the key.
fn is_among(fields: &[Field], key: &str) -> bool
    ensures { result ≡ list_any (λ field. bytes_eq (field_key field) key.now) fields.now }
{
    fields.iter().any(|field| field.key() == key)
}

/// Whether a table of this sort may have a key.
fn has_key(sort: Sort, key: &str) -> bool
    ensures { result ≡ has_key sort key.now }
{
    match sort {
        Sort::OfBoard => is_among(
            &[
                Field::Board(BoardKey::Name),
                Field::Board(BoardKey::Address),
                Field::Board(BoardKey::Port),
                Field::Board(BoardKey::Nodes),
                Field::Board(BoardKey::Offset),
                Field::Board(BoardKey::PackMinutes),
                Field::Board(BoardKey::NewsPort),
                Field::Board(BoardKey::NewsLevel),
                Field::Board(BoardKey::Areas),
                Field::Board(BoardKey::Users),
            ],
            key,
        ),
        Sort::OfArea => is_among(
            &[
                Field::Area(1, AreaKey::Name),
                Field::Area(1, AreaKey::Dir),
                Field::Area(1, AreaKey::Base),
                Field::Area(1, AreaKey::Kind),
                Field::Area(1, AreaKey::Read),
                Field::Area(1, AreaKey::Post),
                Field::Area(1, AreaKey::Sysop),
                Field::Area(1, AreaKey::Slots),
            ],
            key,
        ),
        Sort::OfUser => is_among(
            &[
                Field::User(1, UserKey::Name),
                Field::User(1, UserKey::Id),
                Field::User(1, UserKey::Level),
                Field::User(1, UserKey::Salt),
                Field::User(1, UserKey::Digest),
            ],
            key,
        ),
    }
}

/// What stands before a key in its name.
fn owner_of(sort: Sort, place: u32) -> FieldName
    ensures { result.bytes ≡ owner_of sort place }
{
    match sort {
        Sort::OfBoard => FieldName::new(),
        Sort::OfArea => owned_name("area.", place, ""),
        Sort::OfUser => owned_name("user.", place, ""),
    }
}

/// Puts the names of the keys that this table may not have behind the others.
fn note_unknown(
    alloc: Global,
    table: &Table,
    sort: Sort,
    place: u32,
    unknown: &mut Texts,
) -> Result<(), OutOfMemory>
    ensures { OnOk result (unknown.new ≡ unknown.old ++ unknown_in sort place (table_view table.now)) }
{
    let owner = owner_of(sort, place);
    for (key, _) in table {
        if !has_key(sort, key.as_str()) {
            unknown.push(Text::joined(alloc, owner.as_str(), key.as_str())?)?;
        }
    }
    Ok(())
}

/// The same of each of these tables, counted from 1.
fn note_unknown_in_each(
    alloc: Global,
    values: &[Value],
    sort: Sort,
    unknown: &mut Texts,
) -> Result<(), OutOfMemory>
    requires each { are_all_tables values.now ≡ true }
    requires few { length values.now ≤ 1024 }
    ensures { OnOk result (unknown.new ≡ unknown.old ++ unknown_in_each sort 1 (tables_view values.now)) }
{
    let mut place = 1;
    for value in values {
        note_unknown(alloc, entries_of(value), sort, place, unknown)?;
        place += 1;
    }
    Ok(())
}

/// The names of the keys of a document, with its tables of areas and of users, that are no field's.
pub(crate) fn unknown_of(
    alloc: Global,
    table: &Table,
    areas: &[Value],
    users: &[Value],
) -> Result<Texts, OutOfMemory>
    requires areas { are_all_tables areas.now ≡ true }
    requires users { are_all_tables users.now ≡ true }
    requires few_areas { length areas.now ≤ 255 }
    requires few_users { length users.now ≤ 1024 }
    ensures { IfOk result (λ unknown. unknown ≡ unknown_in OfBoard 0 (table_view table.now)
        ++ unknown_in_each OfArea 1 (tables_view areas.now) ++ unknown_in_each OfUser 1
        (tables_view users.now)) }
{
    let mut unknown = Texts::new(alloc);
    note_unknown(alloc, table, Sort::OfBoard, 0, &mut unknown)?;
    note_unknown_in_each(alloc, areas, Sort::OfArea, &mut unknown)?;
    note_unknown_in_each(alloc, users, Sort::OfUser, &mut unknown)?;
    Ok(unknown)
}
