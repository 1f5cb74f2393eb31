//! Events as keys, and echoes as bytes.
ghost use Rattle.std.specs.Prelude.{◌≡◌, ◌++◌, OnOk};
ghost use Rattle.jb_line.specs.declared.key.Echo.{Echo};
ghost use Rattle.jb_talk.specs.Keys.{echo_bytes, key_of, yes_of};

use jb_base::OutOfMemory;
use jb_line::{Echo, Key};
use jb_telnet::{Event, IAC};

/// The key that an event is.
pub fn key_of(event: Event) -> Option<Key>
    ensures { result ≡ key_of event }
{
    match event {
        Event::Byte(byte) => Some(Key::Byte(byte)),
        Event::EraseChar => Some(Key::EraseChar),
        Event::EraseLine => Some(Key::EraseLine),
        _ => None,
    }
}

/// What is said to a caller who asks whether the board is there.
pub fn yes_of(event: Event) -> &'static [u8]
    ensures { result.now ≡ yes_of event }
{
    match event {
        Event::AreYouThere => b"[Yes]\r\n",
        _ => b"",
    }
}

/// Puts so many bytes rubbed out behind these: each is a step back, a space and a step back.
fn append_rubs(owed: &mut Vec<u8>, count: u8) -> Result<(), OutOfMemory>
    ensures { OnOk result (owed.new.items ≡ owed.old.items ++ echo_bytes (Echo.Rub count)) }
{
    for _i in 0..count {
        owed.extend_from_slice(&[8, 32, 8])?;
    }
    Ok(())
}

/// Puts an echo behind these bytes.
pub fn append_echo(owed: &mut Vec<u8>, echo: Echo) -> Result<(), OutOfMemory>
    ensures { OnOk result (owed.new.items ≡ owed.old.items ++ echo_bytes echo) }
{
    match echo {
        Echo::Nothing => Ok(()),
        Echo::One(IAC) => Ok(owed.extend_from_slice(&[IAC, IAC])?),
        Echo::One(byte) => Ok(owed.push(byte)?),
        Echo::Rub(count) => append_rubs(owed, count),
        Echo::NewLine => Ok(owed.extend_from_slice(b"\r\n")?),
    }
}
