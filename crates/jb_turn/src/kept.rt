//! What the layer above says of its state and its entries, and how a call names what it adds.
ghost use Rattle.std.specs.Prelude.{ℕ, List, Option, None};

use std::marker::Brand;

/// The meanings of a state that is kept behind a turn. It has no calls.
///
/// `O` is what is known of the beginning, `E` an entry of the history.
pub trait Kept<O, E> {
    // The state stands for this list of entries, which began from this opening.
    ghost stands: { Self → O → List E → Type 0 };

    // The opening of a turn that begins with this state.
    ghost opening: { Self → O };

    // The node whose call an entry is, if it is one.
    ghost caller: { E → Option ℕ };
}

/// Names the entry that `note` adds. `Brand` stands for the one that a call's proof picks.
pub trait NamesEntry<E> {
    ghost entry: { Option E };
}

impl<E> NamesEntry<E> for Brand {
    ghost entry = { None };
}

/// Names the remark that `give` keeps in the seat's view, or none.
pub trait NamesRemark<Q> {
    ghost remark: { Option Q };
}

impl<Q> NamesRemark<Q> for Brand {
    ghost remark = { None };
}
