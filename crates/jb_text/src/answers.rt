//! The line of each reply and each fault.
ghost use Rattle.std.specs.Prelude.{◌≡◌, ◌++◌, IfOk, codes, decimal};
ghost use Rattle.jb_text.specs.Faults.{fault_text};
ghost use Rattle.jb_text.specs.Replies.{field_name, reply_text, rule_name, sentence};

use crate::writing::append_number;
use jb_base::{Bytes, OutOfMemory, Rule};
use jb_model::{Field, Reply};
use jb_state::SharedFault;
use std::alloc::Global;

/// The name of a rule of an area.
fn name_of_rule(rule: Rule) -> &'static [u8]
    ensures { result.now ≡ rule_name rule }
{
    match rule {
        Rule::A1 => b"A1",
        Rule::A2 => b"A2",
        Rule::A3 => b"A3",
        Rule::A4 => b"A4",
        Rule::A5 => b"A5",
        Rule::A6 => b"A6",
    }
}

/// The name of a part of a message.
fn name_of_field(field: Field) -> &'static [u8]
    ensures { result.now ≡ field_name field }
{
    match field {
        Field::To => b"To",
        Field::Subject => b"Subject",
        Field::Text => b"Text",
    }
}

/// A sentence with a number in it.
fn one_number(alloc: Global, before: &[u8], number: u64, after: &[u8]) -> Result<Bytes, OutOfMemory>
    ensures { IfOk result (λ text. text ≡ sentence before.now number after.now) }
{
    let mut text = Bytes::copy(alloc, before)?;
    append_number(&mut text, number)?;
    text.append(after)?;
    Ok(text)
}

/// A sentence with two numbers in it, and a stop.
fn two_numbers(
    alloc: Global,
    before: &[u8],
    first: u64,
    between: &[u8],
    second: u64,
) -> Result<Bytes, OutOfMemory>
    ensures { IfOk result (λ text.
        text ≡ sentence before.now first between.now ++ decimal second ++ codes ".") }
{
    let mut text = one_number(alloc, before, first, between)?;
    append_number(&mut text, second)?;
    text.append(b".")?;
    Ok(text)
}

/// The line of a pack.
fn packed(alloc: Global, base: u32, live: u32, dropped: u32) -> Result<Bytes, OutOfMemory>
    ensures { IfOk result (λ text. text
        ≡ sentence (codes "Packed: base ") base
        (codes ", live ") ++ decimal live ++ codes ", dropped " ++ decimal dropped ++ codes ".") }
{
    let mut text = one_number(alloc, b"Packed: base ", u64::from(base), b", live ")?;
    append_number(&mut text, u64::from(live))?;
    text.append(b", dropped ")?;
    append_number(&mut text, u64::from(dropped))?;
    text.append(b".")?;
    Ok(text)
}

/// The line of a refusal by a rule.
fn denied(alloc: Global, rule: Rule) -> Result<Bytes, OutOfMemory>
    ensures { IfOk result (λ text. text ≡ codes "Denied by rule " ++ rule_name rule ++ codes ".") }
{
    let mut text = Bytes::copy(alloc, b"Denied by rule ")?;
    text.append(name_of_rule(rule))?;
    text.append(b".")?;
    Ok(text)
}

/// The line of a part that is too long.
fn too_long(alloc: Global, field: Field, length: u64) -> Result<Bytes, OutOfMemory>
    ensures { IfOk result (λ text. text
        ≡ codes "Field " ++ field_name field ++ codes " too long: " ++ decimal length ++ codes " bytes.") }
{
    let mut text = Bytes::copy(alloc, b"Field ")?;
    text.append(name_of_field(field))?;
    text.append(b" too long: ")?;
    append_number(&mut text, length)?;
    text.append(b" bytes.")?;
    Ok(text)
}

/// The line of a part that is empty.
fn empty_name(alloc: Global, field: Field) -> Result<Bytes, OutOfMemory>
    ensures { IfOk result (λ text. text ≡ codes "Field " ++ field_name field ++ codes " is empty.") }
{
    let mut text = Bytes::copy(alloc, b"Field ")?;
    text.append(name_of_field(field))?;
    text.append(b" is empty.")?;
    Ok(text)
}

/// The line of a reply, without its end. A letter has none: [`crate::letter`] shows it.
pub fn reply(alloc: Global, reply: &Reply) -> Result<Bytes, OutOfMemory>
    ensures { IfOk result (λ text. text ≡ reply_text reply.now) }
{
    match reply {
        Reply::Posted { number } => one_number(alloc, b"Posted as ", u64::from(*number), b"."),
        Reply::Edited { number } => one_number(alloc, b"Edited ", u64::from(*number), b"."),
        Reply::Text { .. } => Ok(Bytes::new(alloc)),
        Reply::Killed { number } => one_number(alloc, b"Killed ", u64::from(*number), b"."),
        Reply::Marked { last, high } => {
            two_numbers(
                alloc,
                b"Mark is ",
                u64::from(*last),
                b", high ",
                u64::from(*high),
            )
        }
        Reply::Packed {
            base,
            live,
            dropped,
        } => packed(alloc, *base, *live, *dropped),
        Reply::Relinked { changed } => {
            one_number(alloc, b"Relinked: ", u64::from(*changed), b" changed.")
        }
        Reply::Denied { rule } => denied(alloc, *rule),
        Reply::NoMessage { .. } => Bytes::copy(alloc, b"No such message."),
        Reply::TooLong { field, length } => too_long(alloc, *field, *length),
        Reply::EmptyName { field } => empty_name(alloc, *field),
        Reply::SlotsFull { slots } => one_number(
            alloc,
            b"Area full: ",
            u64::from(*slots),
            b" slots.",
        ),
        Reply::SubfieldsFull { length } => {
            one_number(alloc, b"Subfields full: ", *length, b" bytes.")
        }
        Reply::HeadersFull { .. } => Bytes::copy(alloc, b"Headers full."),
        Reply::TextFull { .. } => Bytes::copy(alloc, b"Texts full."),
        Reply::NumbersSpent { next } => {
            one_number(alloc, b"Numbers spent at ", u64::from(*next), b".")
        }
        Reply::MarksFull { .. } => Bytes::copy(alloc, b"Marks full."),
    }
}

/// The line of a fault, without its end.
pub fn fault(alloc: Global, fault: &SharedFault) -> Result<Bytes, OutOfMemory>
    ensures { IfOk result (λ text. text ≡ fault_text fault.now) }
{
    match fault {
        SharedFault::StoreFault => Bytes::copy(alloc, b"Store fault: the change is in doubt."),
        SharedFault::RunSpent => Bytes::copy(alloc, b"History full."),
        SharedFault::Barred => Bytes::copy(alloc, b"Index not open, try again."),
    }
}
