//! A shared area ends with all its passes.
ghost use Rattle.std.specs.Prelude.{◌≡◌, All, IfErr, IfOk, OnOk};
ghost use mathlib.Core.List.{IsPrefix};
ghost use Rattle.jb_publish.specs.Fronts.{book_of, known_list};
ghost use Rattle.jb_publish.specs.Pairs.{IsIn};
ghost use Rattle.jb_publish.specs.Publications.{publication_of};
ghost use Rattle.jb_shared.specs.Areas.{passes_of, IsOf};
ghost use Rattle.jb_shared.specs.Closing.{known_by, Closes, HasEachNode, IsMissing};
ghost use Rattle.jb_shared.specs.Passes.{IsPairOf};

use crate::shown::ShownArea;
use crate::{CloseError, Pass, SharedArea};
use jb_area::OpenArea;
use jb_disk::Disk;
use jb_model::Entry;
use jb_publish::Front;
use std::sync::Wait;

impl Pass {
    /// What its looks have shown.
    fn shown(&self) -> Front<Entry>
        ensures list { known_list result ≡ self.now.known.shown }
        ensures pair { IsPairOf self.now (book_of result) }
    {
        match &self.parts {
            Some(parts) => parts.reader.seen(),
            None => unreachable!(),
        }
    }
}

/// The longer of two lists that one pair has published; each of the two begins it.
fn longer(one: Front<Entry>, other: Front<Entry>) -> Front<Entry>
    requires pair { book_of other ≡ book_of one }
    ensures pair { book_of result ≡ book_of one }
    ensures one { IsPrefix (known_list one) (known_list result) }
    ensures other { IsPrefix (known_list other) (known_list result) }
{
    if one.covers(&other) { one } else { other }
}

/// The longest list that one of these passes was shown; what each was shown begins it.
fn longest_shown(origin: &Front<Entry>, passes: &[Pass]) -> Front<Entry>
    requires pair { All (λ pass. IsPairOf pass (book_of origin.now)) passes.now }
    ensures pair { book_of result ≡ book_of origin.now }
    ensures begins { All (λ pass. IsPrefix pass.known.shown (known_list result)) passes.now }
{
    let mut longest = origin.again();
    for pass in passes {
        longest = longer(longest, pass.shown());
    }
    longest
}

/// Ends what looks see, and gives the area. This list begins what was shown to looks last.
fn end<D: Disk, R: Wait>(rt: &R, state: ShownArea<D>, longest: &Front<Entry>) -> OpenArea<D>
    requires pair { IsIn (publication_of state.shower).mark longest.now }
    ensures area { result ≡ state.area }
    ensures begins { IsPrefix (known_list longest.now) (publication_of state.shower).list }
{
    let ShownArea {
        area,
        shower,
        doubted: _,
    } = state;
    shower.leads(rt, longest);
    shower.close(rt);
    area
}

impl<D: Disk> SharedArea<D> {
    /// Ends the sharing where all passes are there, and gives the area back. It takes no memory, and waits for the looks that are
    /// on their way; with all passes there, there are none.
    ///
    /// `Err` hands the area and the passes back as they were, with the lowest node whose pass is not among them.
    pub fn close<R: Wait>(
        self,
        rt: &R,
        passes: Vec<Pass>,
    ) -> Result<OpenArea<D>, (SharedArea<D>, Vec<Pass>, CloseError)>
        requires ours { All (IsOf self) passes.items }

        // All passes are there, and what they know is of one history, for which the area stands.
        ensures all { OnOk result (HasEachNode (known_by passes.items) (passes_of self)) }
        ensures closed { IfOk result (λ area. Closes D.device passes.items area) }

        // A pass is missing, and nothing has changed.
        ensures missing { IfErr result (λ r. IsMissing passes.items (passes_of self) r.2) }
        ensures kept { IfErr result (λ r. (r.0 ≡ self) × (r.1.items ≡ passes.items)) }
    {
        let SharedArea { turn, origin } = self;
        let longest = longest_shown(&origin, passes.as_slice());
        match turn.close(passes) {
            Ok(state) => Ok(end(rt, state, &longest)),
            Err((turn, passes, node)) => {
                Err((
                    SharedArea { turn, origin },
                    passes,
                    CloseError::PassMissing { node },
                ))
            }
        }
    }
}
