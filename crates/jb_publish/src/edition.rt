//! A copy of the value beside the list that it stands for.
use crate::front::Front;
use left_right::Absorb;
use std::alloc::AllocError;

/// A copy of the value, with the front of the list that it stands for.
#[derive(Drop)]
pub struct Edition<T, E> {
    pub(crate) value: T,
    pub(crate) front: Front<E>,
    /// Whether the pair has its mark. Until then no end knows one.
    pub(crate) begun: bool,
}

/// `left_right` is given no operations, since its contracts tell nothing of the room for them: the writer has queues of its own. Until the
/// pair has its mark, both copies have the same value.
impl<T, E> Absorb<()> for Edition<T, E> {
    ghost use Rattle.jb_publish.specs.Editions.{in_common};

    type State = Option<T>;

    ghost state = { in_common };

    ghost applied = { λ s operation. s };

    ghost never_fails = { Unit {0} };

    fn absorb_first(&mut self, _operation: &(), _other: &Edition<T, E>) -> Result<(), AllocError> {
        Ok(())
    }
}

impl<T, E> Edition<T, E> {
    ghost use Rattle.std.specs.Prelude.{◌≡◌, true};
    ghost use Rattle.jb_publish.specs.Editions.{edition};

    /// The value stands for the list of this front, of a pair that has its mark.
    pub(crate) fn settle(&mut self, front: &Front<E>)
        ensures { self.new ≡ edition self.old.value front.now true }
    {
        self.front = front.again();
        self.begun = true;
    }
}
