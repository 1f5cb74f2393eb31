//! What a reader does.
ghost use Rattle.std.specs.Prelude.{◌≡◌, ◌≤◌, ◌<◌, true, [], ◌∷◌, ◌++◌, is_some, length, IfOk, IfErr};
ghost use mathlib.Core.List.{IsPrefix};
ghost use Rattle.left_right.specs.Sides.{view};
ghost use Rattle.jb_publish.specs.Accounts.{account_in, account_of, looked, told_with, refused_once, value_in};
ghost use Rattle.jb_publish.specs.Fronts.{known_list};
ghost use Rattle.jb_publish.specs.Marks.{ValueStandsFrom, known, opening_at};
ghost use Rattle.jb_publish.specs.Pairs.{IsIn};
ghost use Rattle.jb_publish.specs.Shows.{IsOfPair};

use crate::ends::{EditionReader, EditionReading, Shown, Sight};
use crate::front::Front;
use crate::meaning::Published;
use crate::rule::{Floor, Look};
use std::marker::Brand;

// Lets the reader in where it is shown no less than is known.
fn enter<T: Published<O, E> + Drop, O, E, J: Floor>(
    reader: EditionReader<T, O, E>,
    least: u64,
) -> Result<EditionReading<T, O, E>, EditionReader<T, O, E>>
    requires least { J.least ≡ least }
    requires bound { is_some (view reader.place).mark ≡ true }
    ensures enough { IfOk result (λ r. least ≤ r.part.value.front.count) }
    ensures of { IfOk result (λ r. IsOfPair T.stands (view reader.place).mark r.part.value) }
    ensures looks { IfOk result (λ r. view r.place ≡ known (view reader.place).mark
        ((view reader.place).looks ++ r.part.value.front.count ∷ [])) }
    ensures err { IfErr result (λ r. view r.place ≡ view reader.place) }
{
    let reading = reader.enter_as::<Look<J>>()?;
    if reading.get().front.count < least {
        return Err(reading.leave());
    }
    Ok(reading)
}

impl<T: Published<O, E> + Drop, O, E> Shown<T, O, E> {
    /// What its looks have shown.
    pub fn seen(&self) -> Front<E>
        ensures list { known_list result ≡ (account_of self.now).shown }
        ensures pair { IsIn (account_of self.now).mark result }
    {
        self.shown.again()
    }

    /// How often it was not let in, at most the last value of a `u64`.
    pub fn barred(&self) -> u64
        ensures { result ≡ (account_of self.now).barred }
    {
        self.barred
    }

    /// Takes in what a writer of its own pair told.
    pub fn learn(&mut self, told: Front<E>)
        requires { IsIn (account_of self.old).mark told }

        // It was told the longer of the two lists, which the other begins.
        ensures longer { length (account_of self.old).told ≤ length (known_list told)
            → (account_of self.new).told ≡ known_list told }
        ensures shorter { length (known_list told) < length (account_of self.old).told
            → (account_of self.new).told ≡ (account_of self.old).told }
        ensures begins { IsPrefix (account_of self.old).told (account_of self.new).told
            × IsPrefix (known_list told) (account_of self.new).told }

        // All else stays.
        ensures same { account_of self.new ≡ told_with (account_of self.old) (account_of self.new).told }
    {
        if told.covers(&self.told) {
            self.told = told;
        }
    }

    /// Looks at what was published last. It waits for nobody.
    ///
    /// `Err` hands the reader back where it was not let in: `left_right` ties its refusal to no cause, and what it would show
    /// is no less than what the reader knows.
    pub fn look(self) -> Result<Sight<T, O, E>, Shown<T, O, E>>
        // The look shows a list that begins with all that was shown and with all that was told, and the value stands for it.
        ensures begins { IfOk result (λ sight. IsPrefix (account_of self).shown
            (account_in sight).shown × IsPrefix (account_of self).told (account_in sight).shown) }
        ensures stands { IfOk result (λ sight. ValueStandsFrom T.stands
            (opening_at (account_of self).mark) (value_in sight) (account_in sight).shown) }

        // Beside that it is counted how much it showed, and all else stays.
        ensures looked { IfOk result (λ sight.
            account_in sight ≡ looked (account_of self) (account_in sight).shown) }

        // A reader that was not let in counts that alone.
        ensures err { IfErr result (λ back. account_of back ≡ refused_once (account_of self)) }
    {
        let Shown {
            reader,
            shown,
            told,
            barred,
        } = self;
        let least = shown.count.max(told.count);
        match enter::<T, O, E, Brand>(reader, least) {
            Ok(reading) => {
                let front = reading.get().front.again();
                shown.begins(&front);
                told.begins(&front);
                Ok(Sight {
                    reading,
                    shown: front,
                    told,
                    barred,
                })
            }
            Err(reader) => Err(Shown {
                reader,
                shown,
                told,
                barred: barred.saturating_add(1),
            }),
        }
    }
}

impl<T: Published<O, E> + Drop, O, E> Sight<T, O, E> {
    /// What the look shows.
    pub fn value(&self) -> &T
        ensures { result.now ≡ value_in self.now }
    {
        &self.reading.get().value
    }

    /// Ends the look.
    pub fn leave(self) -> Shown<T, O, E>
        ensures { account_of result ≡ account_in self }
    {
        let Sight {
            reading,
            shown,
            told,
            barred,
        } = self;
        Shown {
            reader: reading.leave(),
            shown,
            told,
            barred,
        }
    }
}
