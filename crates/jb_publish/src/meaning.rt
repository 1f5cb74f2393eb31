//! What the layer above says of its value, its changes and its entries, and how a call names a list that nobody has in memory.
ghost use Rattle.std.specs.Prelude.{◌≡◌, List, [], Option, None};

use std::marker::Brand;

/// The meaning of a value that is published. It has no calls.
///
/// `O` is what is known of the beginning, `E` an entry of the published list.
pub trait Published<O, E> {
    // The value stands for this list of entries, which began from this opening.
    ghost stands: { Self → O → List E → Type 0 };

    // Any entry: the book's step has to name one, and nothing depends on which.
    ghost sample: { E };
}

/// A value that takes in changes of this kind. Both copies absorb each change, and it cannot fail.
pub trait Absorbs<K> {
    // The value after the change.
    ghost changed: { Self → K → Self };

    fn absorb(&mut self, change: &K)
        ensures { self.new ≡ changed self.old change.now };
}

/// Names the list that a publication goes on to. `Brand` stands for the one that a call's proof picks.
pub trait NamesList<E> {
    ghost items: { List E };
}

impl<E> NamesList<E> for Brand {
    ghost items = { [] };
}

/// Names the opening of a pair. `Brand` stands for the one that a call's proof picks.
pub trait NamesOpening<O> {
    ghost opening: { Option O };
}

impl<O> NamesOpening<O> for Brand {
    ghost opening = { None };
}
