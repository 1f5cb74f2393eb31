//! The bell of a host in memory.
ghost use Rattle.std.specs.Prelude.{◌≡◌, IfNone, IfSome};
ghost use Rattle.jb_host.specs.Desk.{bell_out, has_bell};
ghost use Rattle.jb_host.specs.Entrances.{bell_in};
ghost use Rattle.jb_host.specs.Memory.{memory_rings};

use crate::memory_bell::MemBell;
use std::mem;

/// A place for a bell.
#[derive(Drop)]
pub enum Belfry {
    /// There is no bell.
    Empty,
    /// The bell was handed out.
    Out,
    /// The bell is here.
    Holds(MemBell),
}

/// Takes the bell out, if it is there.
pub(crate) fn take_bell(belfry: &mut Belfry) -> Option<MemBell>
    ensures found { IfSome result (λ bell. bell_in belfry.old ≡ has_bell (memory_rings bell)) }
    ensures out { IfSome result (λ _. bell_in belfry.new ≡ bell_out) }
    ensures none { IfNone result (belfry.new ≡ belfry.old) }
{
    match mem::replace(belfry, Belfry::Out) {
        Belfry::Holds(bell) => Some(bell),
        other => {
            *belfry = other;
            None
        }
    }
}

/// Puts the bell back, if it is out.
pub(crate) fn put_bell_in(belfry: &mut Belfry, bell: MemBell)
    ensures { bell_in belfry.old ≡ bell_out → bell_in belfry.new ≡ has_bell (memory_rings bell) }
{
    if matches!(belfry, Belfry::Out) {
        *belfry = Belfry::Holds(bell);
    }
}
