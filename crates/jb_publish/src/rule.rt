//! The rule over the two copies and over what each end knows, and what each step tells. Nothing above this crate sees it.
use crate::edition::Edition;
use crate::known::Known;
use crate::meaning::{NamesOpening, Published};
use atomic_table::{Join, Split};
use crossbeam_utils::rule::{Outcome, Protocol};
use std::marker::{Brand, PhantomData};

/// Names the number of entries below which a look is not to count. A call picks it.
pub(crate) trait Floor {
    ghost use Rattle.std.specs.Prelude.{ℕ};

    ghost least: { ℕ };
}

impl Floor for Brand {
    ghost least = { 0 };
}

pub(crate) struct EditionLaw;

impl<T: Published<O, E>, O, E> Protocol<Edition<T, E>, Known<O>> for EditionLaw {
    ghost use Rattle.jb_publish.specs.Shows.{ShowsReaders};
    ghost use Rattle.jb_publish.specs.Marks.{blank};

    ghost holds = { ShowsReaders T.stands };

    ghost first = { blank };
}

/// A reader sees the copy that was published last.
pub(crate) struct Look<J> {
    floor: PhantomData<J>,
}

impl<T: Published<O, E>, O, E, J: Floor> Outcome<Edition<T, E>, Known<O>> for Look<J> {
    ghost use Rattle.jb_publish.specs.Shows.{LooksInto};

    ghost then = { LooksInto T.stands J.least };
}

/// The writer names the mark.
pub(crate) struct Bind<J> {
    opening: PhantomData<J>,
}

impl<T, O, E, J: NamesOpening<O>> Outcome<Edition<T, E>, Known<O>> for Bind<J> {
    ghost use Rattle.jb_publish.specs.Shows.{Binds};

    ghost then = { Binds J.opening };
}

/// The writer shows the other copy.
pub(crate) struct Publish;

impl<T, O, E> Outcome<Edition<T, E>, Known<O>> for Publish {
    ghost use Rattle.std.specs.Prelude.{◌≡◌};

    ghost then = { λ v x y w. w ≡ v };
}

/// The writer tells the mark to a reader.
pub(crate) struct Notes;

impl<O> Split<Known<O>> for Notes {
    ghost use Rattle.jb_publish.specs.Marks.{note_of};

    ghost left = { λ v. v };

    ghost right = { note_of };
}

impl<O> Join<Known<O>> for Notes {
    ghost use Rattle.jb_publish.specs.Marks.{informed, blank};

    ghost both = { informed };

    ghost spent = { blank };
}
