//! The tools that tend an area: `relink` and `pack`.
ghost use Rattle.std.specs.Prelude.{◌≡◌, IfErr, IfOk, Ok};
ghost use Rattle.jb_area.specs.Area.{rules_of};
ghost use Rattle.jb_area.specs.Calls.{HasRest};
ghost use Rattle.jb_disk.specs.Device.{CountsFaults};
ghost use Rattle.jb_model.specs.declared.command.Command.TheVariants.{Pack as packing, Relink as relinking};
ghost use Rattle.jb_tool.specs.Changing.{DoesCommand, HasNoLine, of_area};
ghost use Rattle.jb_tool.specs.Recovered.{is_tool_fault};
ghost use Rattle.jb_tool.specs.Tending.{KeepsOrTends, Tends, tool_answer, tool_rules, tool_user};

use crate::ToolError;
use jb_area::{AreaError, OpenArea};
use jb_area_open::open_area;
use jb_base::{AreaRules, Bytes, Kind, MOST_SLOTS, Name, OutOfMemory, User};
use jb_disk::Disk;
use jb_image::OpenError;
use jb_model::{Command, Reply};
use std::alloc::Global;

/// The rules under which a tool tends an area.
pub(crate) fn tool_rules(alloc: Global) -> Result<AreaRules, OutOfMemory>
    ensures { IfOk result (λ rules. rules ≡ tool_rules) }
{
    let address = Bytes::copy(alloc, b"1:1/1")?;
    Ok(AreaRules {
        ordinal: 1,
        address,
        kind: Kind::Local,
        read: 0,
        post: 0,
        sysop: 255,
        slots: MOST_SLOTS,
    })
}

/// The user as whom it does: the sysop.
fn tool_user(alloc: Global) -> Result<User, OutOfMemory>
    ensures { IfOk result (λ user. user ≡ tool_user) }
{
    let name = Name::copy(alloc, b"Tool")?;
    Ok(User {
        name,
        id: 0,
        level: 255,
    })
}

/// What a tool answers where an area replies so: the line of the reply, or that the texts are too long.
fn reply_line(alloc: Global, reply: &Reply) -> Result<Bytes, ToolError>
    ensures line { IfOk result (λ text. tool_answer reply.now ≡ Ok text) }
    ensures none { IfErr result (HasNoLine reply.now) }
{
    match reply {
        Reply::TextFull { length } => Err(ToolError::TextFull { length: *length }),
        _ => {
            let mut text = jb_text::reply(alloc, reply)?;
            text.append(b"\n")?;
            Ok(text)
        }
    }
}

/// A failed call of an area, as the refusal of a tool.
fn of_area(error: AreaError) -> ToolError
    ensures { result ≡ of_area error }
{
    match error {
        AreaError::StoreFault => ToolError::Open(OpenError::StoreFault),
        AreaError::OutOfMemory => ToolError::Open(OpenError::OutOfMemory),
    }
}

/// Has a command done in an open area, and gives the line of the reply, which is made before anything is written but the copies
/// of a pack in .NDT.
fn tend_area<D: Disk>(
    alloc: Global,
    area: &mut OpenArea<D>,
    user: &User,
    command: &Command,
) -> Result<Bytes, ToolError>
    requires rests { HasRest D.device area.old }
    requires rules { rules_of area.old ≡ tool_rules }
    requires user { user.now ≡ tool_user }
    ensures { DoesCommand D.device command.now area.old area.new result }
{
    match area.begin(alloc, user, 0, command) {
        Ok(()) => {}
        Err(error) => return Err(of_area(error)),
    }
    match reply_line(alloc, area.coming()) {
        Ok(text) => match area.finish() {
            Ok(_) => Ok(text),
            Err(_) => Err(ToolError::Open(OpenError::StoreFault)),
        },
        Err(error) => {
            area.abandon();
            Err(error)
        }
    }
}

/// Opens the area of a base, and has a command done in it.
fn tend<D: Disk>(alloc: Global, disk: D, command: &Command) -> (D, Result<Bytes, ToolError>)
    ensures answer { Tends command.now (D.device disk) (D.device result.0) result.1 }
    ensures crash { KeepsOrTends command.now (D.device disk) (D.device result.0) }
    ensures faults { CountsFaults is_tool_fault (D.device disk) (D.device result.0) result.1 }
{
    let Ok(rules) = tool_rules(alloc) else {
        return (disk, Err(ToolError::Open(OpenError::OutOfMemory)));
    };
    let Ok(user) = tool_user(alloc) else {
        return (disk, Err(ToolError::Open(OpenError::OutOfMemory)));
    };
    match open_area(alloc, disk, rules) {
        Ok(area) => {
            let mut area = area;
            let answer = tend_area(alloc, &mut area, &user, command);
            (area.close(), answer)
        }
        Err((disk, error)) => (disk, Err(ToolError::from(error))),
    }
}

/// Computes the reply links of the base on a disk anew, once the change is done that waits in its journal, and says how many
/// messages had others: the parent of each message, its first reply and the next reply to its parent. Of a linked base nothing
/// but the journal's head is written.
pub fn relink<D: Disk>(alloc: Global, disk: D) -> (D, Result<Bytes, ToolError>)
    ensures answer { Tends relinking (D.device disk) (D.device result.0) result.1 }
    ensures crash { KeepsOrTends relinking (D.device disk) (D.device result.0) }
    ensures faults { CountsFaults is_tool_fault (D.device disk) (D.device result.0) result.1 }
{
    tend(alloc, disk, &Command::Relink)
}

/// Drops the killed messages of the base on a disk, once the change is done that waits in its journal, and writes its files anew
/// without gaps; each message keeps its number. Says the base number then, how many messages are live, and how many were
/// dropped. Refused as `TextFull` where the live texts have more bytes than .JDT may have; then all is as it was. Where it wants
/// memory, .NDT alone may be another one.
pub fn pack<D: Disk>(alloc: Global, disk: D) -> (D, Result<Bytes, ToolError>)
    ensures answer { Tends packing (D.device disk) (D.device result.0) result.1 }
    ensures crash { KeepsOrTends packing (D.device disk) (D.device result.0) }
    ensures faults { CountsFaults is_tool_fault (D.device disk) (D.device result.0) result.1 }
{
    tend(alloc, disk, &Command::Pack)
}
