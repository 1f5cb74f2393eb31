//! The rule of one queue, and what each step on it tells.

use crate::page::Page;
use crate::view::View;
use crossbeam_queue::protocol::{Join, Lesson, Outcome, Protocol, Split};
use crossbeam_queue::{Pass, RuledArrayQueue};

pub(crate) struct InOrder;

impl Protocol<Page, View> for InOrder {
    ghost use Rattle.jb_page.specs.Rule.{Queued};
    ghost use Rattle.jb_page.specs.Rows.{maker};

    ghost holds = { Queued };

    ghost first = { maker };
}

pub(crate) type Queue = RuledArrayQueue<Page, View, InOrder>;

pub(crate) type QueuePass = Pass<Page, View>;

/// A page is put, or there was no room.
pub(crate) struct Put;

impl Outcome<Page, View> for Put {
    ghost use Rattle.std.specs.Prelude.{◌≡◌};
    ghost use Rattle.jb_page.specs.Rows.{with_put};

    ghost then = { λ v x w. w ≡ with_put v x };
}

impl Lesson<Page, View> for Put {
    ghost use Rattle.std.specs.Prelude.{⊤};

    ghost fact = { λ v items. ⊤ };
}

/// A page is taken, or there was none.
pub(crate) struct Taken;

impl Outcome<Page, View> for Taken {
    ghost use Rattle.std.specs.Prelude.{◌≡◌};
    ghost use Rattle.jb_page.specs.Rows.{with_taken};

    ghost then = { λ v x w. w ≡ with_taken v x };
}

impl Lesson<Page, View> for Taken {
    ghost use Rattle.jb_page.specs.Rows.{Accounts};

    ghost fact = { Accounts };
}

/// What a pass that took in all others learns.
pub(crate) struct All;

impl Lesson<Page, View> for All {
    ghost use Rattle.jb_page.specs.Rows.{Whole};

    ghost fact = { Whole };
}

impl Outcome<Page, View> for All {
    ghost use Rattle.std.specs.Prelude.{◌≡◌};
    ghost use Rattle.jb_page.specs.Rows.{with_taken};

    ghost then = { λ v x w. w ≡ with_taken v x };
}

/// That a send found no room is recorded.
pub(crate) struct WasFull;

impl Split<View> for WasFull {
    ghost use Rattle.jb_page.specs.Rows.{with_refusal, blank};

    ghost left = { with_refusal };

    ghost right = { λ v. blank };
}

/// That a take found no page is recorded.
pub(crate) struct WasEmpty;

impl Split<View> for WasEmpty {
    ghost use Rattle.jb_page.specs.Rows.{with_none, blank};

    ghost left = { with_none };

    ghost right = { λ v. blank };
}

/// One pager more. The older one goes on taking, if it takes.
pub(crate) struct Next;

impl Split<View> for Next {
    ghost use Rattle.std.specs.Prelude.{false};
    ghost use Rattle.jb_page.specs.Rows.{older, newcomer};

    ghost left = { λ v. older v v.takes };

    ghost right = { λ v. newcomer v false };
}

/// One pager more, which takes from now on.
pub(crate) struct NextTakes;

impl Split<View> for NextTakes {
    ghost use Rattle.std.specs.Prelude.{false, true};
    ghost use Rattle.jb_page.specs.Rows.{older, newcomer};

    ghost left = { λ v. older v false };

    ghost right = { λ v. newcomer v true };
}

/// One pass takes in another.
pub(crate) struct Both;

impl Join<View> for Both {
    ghost use Rattle.jb_page.specs.Rows.{joined, blank};

    ghost both = { joined };

    ghost spent = { blank };
}
