//! The arrays of tables in the document.
ghost use Rattle.std.specs.Prelude.{◌≡◌, ◌≤◌, ◌&&◌, nat_le, true, length, IfOk};
ghost use Rattle.toml.specs.View.{table_view, view};
ghost use Rattle.jb_conf.specs.Faults.{ValueOrFault, table_of, tables_at};
ghost use Rattle.jb_conf.specs.Rows.{tables_fault};
ghost use Rattle.jb_conf.specs.Tables.{are_all_tables, is_table, tables_view};

use crate::document::{found, within};
use crate::{ConfError, Field};
use toml::{Table, Value};

fn are_all_tables(values: &[Value]) -> bool
    ensures { result ≡ are_all_tables values.now }
{
    values.iter().all(|value| value.is_table())
}

fn is_some_of(count: usize, most: usize) -> bool
    ensures { result ≡ (nat_le 1 count && nat_le count most) }
{
    1 <= count && count <= most
}

/// The array at a field, of one table to so many.
pub fn tables(table: &Table, field: Field, most: usize) -> Result<&[Value], ConfError>
    ensures row { ValueOrFault (tables_fault field most (table_view table.now))
        (λ values. tables_view values.now ≡ tables_at field (table_view table.now)) result }
    ensures each { IfOk result (λ values. are_all_tables values.now ≡ true) }
    ensures few { IfOk result (λ values. length values.now ≤ most) }
{
    let Some(value) = found(table, field) else {
        return Err(ConfError::Missing { field });
    };
    let Some(array) = value.as_array() else {
        return Err(ConfError::WrongKind { field });
    };
    let values = array.as_slice();
    if !are_all_tables(values) {
        return Err(ConfError::WrongKind { field });
    }
    within(is_some_of(values.len(), most), field)?;
    Ok(values)
}

/// The table that a value is.
pub fn entries_of(value: &Value) -> &Table
    requires { is_table value.now ≡ true }
    ensures { table_view result.now ≡ table_of (view value.now) }
{
    match value.as_table() {
        Some(table) => table,
        None => unreachable!(),
    }
}
