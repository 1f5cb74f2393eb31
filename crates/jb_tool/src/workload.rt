//! Who asks, and what is asked in each step.
ghost use Rattle.std.specs.Prelude.{◌≡◌, ◌+◌, ◌%◌, ◌<◌, ◌≤◌, IfOk};
ghost use Rattle.jb_tool.specs.Workload.{answered_in_step, first_of_ten, load_rules, loader, post_of_step, text_of_step};

use jb_base::{AreaRules, Bytes, Kind, Name, OutOfMemory, User};
use jb_model::Command;
use std::alloc::Global;

/// The slots of the area.
const LOAD_SLOTS: u32 = 65_000;

/// The rules of the area.
pub(crate) fn load_rules(alloc: Global) -> Result<AreaRules, OutOfMemory>
    ensures { IfOk result (λ rules. rules ≡ load_rules) }
{
    let address = Bytes::copy(alloc, b"1:1/1")?;
    Ok(AreaRules {
        ordinal: 1,
        address,
        kind: Kind::Local,
        read: 0,
        post: 0,
        sysop: 255,
        slots: LOAD_SLOTS,
    })
}

/// The user who asks.
pub(crate) fn loader(alloc: Global) -> Result<User, OutOfMemory>
    ensures { IfOk result (λ user. user ≡ loader) }
{
    let name = Name::copy(alloc, b"Loader")?;
    Ok(User {
        name,
        id: 1,
        level: 255,
    })
}

/// The text that a step posts.
fn text(alloc: Global, seed: u32, step: u32) -> Result<Bytes, OutOfMemory>
    ensures { IfOk result (λ text. text ≡ text_of_step seed step) }
{
    let letter = b'a' + ((u64::from(seed) + u64::from(step)) % 26) as u8;
    let many = 19 + 10 * (step % 10) as usize;
    let mut text = Bytes::from(vec![in alloc; letter; many]?);
    text.append(b"\r")?;
    Ok(text)
}

/// The number that the post of a step answers, or 0.
fn answered(step: u32, next: u32) -> u32
    requires { 1 ≤ next }
    ensures { result ≡ answered_in_step step next }
{
    if step % 10 % 3 == 0 { next - 1 } else { 0 }
}

/// The post of a step.
pub(crate) fn post(alloc: Global, seed: u32, step: u32, next: u32) -> Result<Command, OutOfMemory>
    requires { 1 ≤ next }
    ensures { IfOk result (λ command. command ≡ post_of_step seed step next) }
{
    let to = Name::copy(alloc, b"All")?;
    let subject = Bytes::copy(alloc, b"Load")?;
    let text = text(alloc, seed, step)?;
    Ok(Command::Post {
        to,
        subject,
        text,
        reply_to: answered(step, next),
        private: false,
    })
}

/// The number of the first message of the ten steps that end with this one.
pub(crate) fn first_of_ten(step: u32) -> u32
    requires tenth { step % 10 ≡ 0 }
    requires behind { 1 ≤ step }
    requires few { step ≤ 50_000 }
    ensures number { result ≡ first_of_ten step }
    ensures few { result ≤ 45_001 }
{
    9 * (step / 10 - 1) + 1
}
