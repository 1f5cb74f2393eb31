//! What is done with a front.
ghost use Rattle.std.specs.Prelude.{◌≡◌, ◌≤◌, ◌<◌, length, MatchBool};
ghost use mathlib.Core.List.{IsPrefix};
ghost use Rattle.jb_publish.specs.Fronts.{book_of, known_list};

use super::Front;

impl<E> Front<E> {
    /// Another of the same.
    pub fn again(&self) -> Front<E>
        ensures { result ≡ self.now }
    {
        Front {
            count: self.count,
            seen: self.seen.again(),
        }
    }

    /// Shows that this list begins the other, which is no shorter.
    pub(crate) fn begins(&self, other: &Front<E>)
        requires { (book_of self.now ≡ book_of other.now) × (self.now.count ≤ other.now.count) }
        ensures { IsPrefix (known_list self.now) (known_list other.now) }
    {
        let mut both = self.seen.again();
        both.learn(&other.seen);
    }

    /// Whether the other list, of the same pair, is no longer. Then it begins this one, and else this one begins it.
    pub fn covers(&self, other: &Front<E>) -> bool
        requires { book_of other.now ≡ book_of self.now }
        ensures prefix { MatchBool result (IsPrefix (known_list other.now) (known_list self.now))
            (IsPrefix (known_list self.now) (known_list other.now)) }
        ensures length { MatchBool result (length (known_list other.now)
            ≤ length (known_list self.now)) (length (known_list self.now) < length (known_list other.now)) }
    {
        if other.count <= self.count {
            other.begins(self);
            true
        } else {
            self.begins(other);
            false
        }
    }
}
