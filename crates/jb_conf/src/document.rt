//! What stands in a table of the document, and whether it is of the kind that it has to be.
ghost use Rattle.std.specs.Prelude.{◌≡◌, ⊤, [], true, false, not};
ghost use Rattle.std.specs.Option.{option_map};
ghost use Rattle.toml.specs.View.{table_view, view};
ghost use Rattle.jb_conf.specs.Faults.{ValueOrFault, at_field, fault_if, is_text, kind_fault, text_at};

use crate::{ConfError, Field};
use toml::{Table, Value};

/// What stands at a field.
pub fn found(table: &Table, field: Field) -> Option<&Value>
    ensures { option_map (λ value. view value.now) result ≡ at_field field (table_view table.now) }
{
    table.get(field.key())
}

/// The text at a field that has to be there.
pub fn required_text(table: &Table, field: Field) -> Result<&str, ConfError>
    ensures { ValueOrFault (kind_fault field true is_text (table_view table.now))
        (λ text. text.now ≡ text_at field [] (table_view table.now)) result }
{
    match found(table, field) {
        None => Err(ConfError::Missing { field }),
        Some(value) => match value.as_str() {
            Some(text) => Ok(text),
            None => Err(ConfError::WrongKind { field }),
        },
    }
}

/// The text at a field, or this one where it is absent.
pub fn text_or<'a>(table: &'a Table, field: Field, absent: &'a str) -> Result<&'a str, ConfError>
    ensures { ValueOrFault (kind_fault field false is_text (table_view table.now))
        (λ text. text.now ≡ text_at field absent.now (table_view table.now)) result }
{
    match found(table, field) {
        None => Ok(absent),
        Some(value) => match value.as_str() {
            Some(text) => Ok(text),
            None => Err(ConfError::WrongKind { field }),
        },
    }
}

/// Refuses a value that does not fit the range of its field.
pub fn within(fits: bool, field: Field) -> Result<(), ConfError>
    ensures { ValueOrFault (fault_if (not fits) (ConfError.OutOfRange field)) (λ _. ⊤) result }
{
    if fits {
        Ok(())
    } else {
        Err(ConfError::OutOfRange { field })
    }
}

/// Refuses a value that one before it has.
pub fn unrepeated(repeats: bool, field: Field) -> Result<(), ConfError>
    ensures { ValueOrFault (fault_if repeats (ConfError.Repeated field)) (λ _. ⊤) result }
{
    if repeats {
        Err(ConfError::Repeated { field })
    } else {
        Ok(())
    }
}
