//! One area of the settings file, read behind those before it.
ghost use Rattle.std.specs.Prelude.{◌≡◌, ◌+◌, ◌≤◌, IfOk};
ghost use Rattle.toml.specs.View.{table_view};
ghost use Rattle.jb_bytes.specs.Name.{same_name};
ghost use Rattle.jb_limits.specs.declared.limits.TheConstants.{MOST_SLOTS_TOGETHER};
ghost use Rattle.jb_conf.specs.Areas.{area_fault, area_of, has_area_name, has_place, rules_fault, rules_of, slots_of};
ghost use Rattle.jb_conf.specs.Faults.{AnswersOrMemory};

use crate::document::{unrepeated, within};
use crate::rows::{area_kind, level, number, printable, sized};
use crate::{AreaKey, BoardArea, ConfError, Field, Text};
use jb_base::{AreaRules, Bytes, MOST_SLOTS, MOST_SLOTS_TOGETHER, Name, OutOfMemory};
use std::alloc::Global;
use toml::Table;

/// Bytes of an area's name.
const MOST_AREA_NAME_BYTES: usize = 24;
/// Bytes of an area's folder.
const MOST_DIR_BYTES: usize = 1_024;
/// Bytes of an area's base.
const MOST_BASE_BYTES: usize = 200;
/// Slots of an area that does not say how many.
const USUAL_SLOTS: u32 = 16_000;

/// Whether the area has this name.
fn is_called(area: &BoardArea, name: &[u8]) -> bool
    ensures { result ≡ same_name area.now.name name.now }
{
    area.name.as_slice().eq_ignore_ascii_case(name)
}

fn has_area_name(name: &[u8], areas: &[BoardArea]) -> bool
    ensures { result ≡ has_area_name name.now areas.now }
{
    areas.iter().any(|area| is_called(area, name))
}

fn has_place(dir: &str, base: &str, areas: &[BoardArea]) -> bool
    ensures { result ≡ has_place dir.now base.now areas.now }
{
    areas.iter().any(|area| area.dir.as_str() == dir && area.base.as_str() == base)
}

/// The rules of the area at this place, where those before it have so many slots together.
fn rules_of(
    alloc: Global,
    table: &Table,
    address: &[u8],
    place: u32,
    together: u32,
) -> Result<AreaRules, ConfError>
    requires place { place ≤ 255 }
    requires room { together ≤ MOST_SLOTS_TOGETHER }
    ensures row { AnswersOrMemory (rules_fault together place (table_view table.now))
        (λ rules. rules ≡ rules_of address.now place (table_view table.now)) result }
    ensures room { IfOk result (λ rules. together + rules.slots ≤ MOST_SLOTS_TOGETHER) }
{
    let kind = area_kind(table, Field::Area(place, AreaKey::Kind))?;
    let read = level(table, Field::Area(place, AreaKey::Read), 0)?;
    let post = level(table, Field::Area(place, AreaKey::Post), 0)?;
    let sysop = level(table, Field::Area(place, AreaKey::Sysop), 255)?;
    let slots = number(
        table,
        Field::Area(place, AreaKey::Slots),
        Some(USUAL_SLOTS),
        1,
        MOST_SLOTS,
    )?;
    within(
        together + slots <= MOST_SLOTS_TOGETHER,
        Field::Area(place, AreaKey::Slots),
    )?;
    Ok(AreaRules {
        ordinal: place as u8,
        address: Bytes::copy(alloc, address)?,
        kind,
        read,
        post,
        sysop,
        slots,
    })
}

/// An area of these parts.
fn board_area(
    alloc: Global,
    name: &[u8],
    dir: &str,
    base: &str,
    rules: AreaRules,
) -> Result<BoardArea, OutOfMemory>
    ensures { IfOk result
        (λ area. area ≡ record { name = name.now; dir = dir.now; base = base.now; rules = rules }) }
{
    Ok(BoardArea {
        name: Name::copy(alloc, name)?,
        dir: Text::copy(alloc, dir)?,
        base: Text::copy(alloc, base)?,
        rules,
    })
}

/// The area at this place, behind those before it, which have so many slots together.
pub fn area_of(
    alloc: Global,
    table: &Table,
    address: &[u8],
    before: &[BoardArea],
    place: u32,
    together: u32,
) -> Result<BoardArea, ConfError>
    requires place { place ≤ 255 }
    requires sum { together ≡ slots_of before.now }
    requires room { together ≤ MOST_SLOTS_TOGETHER }
    ensures row { AnswersOrMemory (area_fault before.now place (table_view table.now))
        (λ area. area ≡ area_of address.now place (table_view table.now)) result }
    ensures room { IfOk result (λ area. together + area.rules.slots ≤ MOST_SLOTS_TOGETHER) }
{
    let name_field = Field::Area(place, AreaKey::Name);
    let dir_field = Field::Area(place, AreaKey::Dir);
    let base_field = Field::Area(place, AreaKey::Base);
    let name = printable(table, name_field, MOST_AREA_NAME_BYTES)?;
    unrepeated(has_area_name(name.as_bytes(), before), name_field)?;
    let dir = sized(table, dir_field, MOST_DIR_BYTES)?;
    let base = sized(table, base_field, MOST_BASE_BYTES)?;
    unrepeated(has_place(dir, base, before), base_field)?;
    let rules = rules_of(alloc, table, address, place, together)?;
    Ok(board_area(alloc, name.as_bytes(), dir, base, rules)?)
}
