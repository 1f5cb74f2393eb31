//! An area is shared: it is put behind a turn with the end that shows its index, and its passes are made.
ghost use Rattle.std.specs.Prelude.{◌≡◌, ◌<◌, ◌≤◌, ℕ, List, Some, [], All, IfErr, IfOk, length, slice_get, vec_capacity, ◌+◌};
ghost use Rattle.jb_limits.specs.declared.limits.TheConstants.{MOST_NODES};
ghost use Rattle.jb_area.specs.Area.{loaded_of, rules_of};
ghost use Rattle.jb_area.specs.Calls.{HasRest};
ghost use Rattle.jb_index.specs.Index.{index_of};
ghost use Rattle.jb_state.specs.State.{state_of};
ghost use Rattle.jb_publish.specs.Accounts.{IsFresh};
ghost use Rattle.jb_publish.specs.Marks.{opening_at};
ghost use Rattle.jb_publish.specs.Publications.{publication_of};
ghost use Rattle.jb_publish.specs.declared.known.PairMark.{PairMark};
ghost use Rattle.jb_turn.specs.Seats.{id_of, AreNewSeats, Rests};
ghost use Rattle.jb_shared.specs.Areas.{IsShared};
ghost use Rattle.jb_shared.specs.Keeping.{IsKept, history_mark};
ghost use Rattle.jb_shared.specs.Making.{AreFresh, fresh_pass};
ghost use Rattle.jb_shared.specs.Passes.{PassView};
ghost use Rattle.jb_shared.specs.Standing.{opening_of};
ghost use Rattle.jb_shared.specs.declared.opening.Opening.{Opening};

use crate::change::IndexChange;
use crate::parts::Parts;
use crate::published::{IndexReader, IndexShower};
use crate::shared::{AreaSeat, AreaTurn};
use crate::shown::ShownArea;
use crate::{Opening, Pass, SharedArea};
use jb_area::OpenArea;
use jb_base::OutOfMemory;
use jb_disk::Disk;
use jb_index::{Index, parents_of};
use jb_model::Entry;
use jb_publish::{NamesOpening, pair};
use std::alloc::{AllocError, Global};
use std::marker::Brand;
use std::sync::Wait;

/// The index of the area, twice.
fn indexes<D: Disk>(alloc: Global, area: &OpenArea<D>) -> Result<(Index, Index), OutOfMemory>
    requires rest { HasRest D.device area.now }
    ensures first { IfOk result (λ both. (texts : List ℕ)
        → both.0 ≡ index_of (rules_of area.now) (state_of texts (loaded_of area.now))) }
    ensures alike { IfOk result (λ both. both.0 ≡ both.1) }
{
    let parents = parents_of(alloc, area.loaded())?;
    let first = Index::of(alloc, area.loaded(), area.rules(), parents.as_slice())?;
    let second = first.copied(alloc)?;
    Ok((first, second))
}

/// Both ends of what looks see of the area, which begins with these two indexes of it.
fn ends<D: Disk, J: NamesOpening<Opening>, R: Wait>(
    rt: &R,
    alloc: Global,
    area: &OpenArea<D>,
    first: Index,
    second: Index,
    nodes: u32,
) -> Result<(IndexShower, Vec<IndexReader>), AllocError>
    requires names { J.opening ≡ Some (opening_of D.device area.now) }
    requires rest { HasRest D.device area.now }
    requires nodes { (0 < nodes) × (nodes ≤ MOST_NODES + 1) }
    requires first { (texts : List ℕ) → first
        ≡ index_of (rules_of area.now) (state_of texts (loaded_of area.now)) }
    requires alike { first ≡ second }
    ensures list { IfOk result (λ r. (publication_of r.0).list ≡ []) }
    ensures queued { IfOk result (λ r. (publication_of r.0).queued ≡ []) }
    ensures value { IfOk result (λ r. (publication_of r.0).value ≡ first) }
    ensures opening { IfOk result (λ r. opening_at (publication_of r.0).mark
        ≡ Some (opening_of D.device area.now)) }
    ensures count { IfOk result (λ r. length r.1.items ≡ nodes) }
    ensures fresh { IfOk result (λ r. (k : ℕ) (s : _) → slice_get r.1.items k ≡ Some s
        → IsFresh (publication_of r.0).mark s) }
{
    pair::<Index, IndexChange, Opening, Entry, J, R>(rt, alloc, first, second, nodes)
}

/// The passes of these seats of the turn, in the same order, each with an end that looks.
fn join<D: Disk>(
    turn: &AreaTurn<D>,
    mut seats: Vec<AreaSeat<D>>,
    mut readers: Vec<IndexReader>,
    mut passes: Vec<Pass>,
) -> Vec<Pass>
    requires resting { All (Rests turn.now) seats.items }
    requires fresh { (mark : PairMark Opening) × AreNewSeats mark seats.items × AreFresh mark readers.items }
    requires room { (length readers.items ≡ length seats.items) × (passes.items ≡ [])
        × (length seats.items ≤ vec_capacity passes) }
    ensures count { length result.items ≡ length seats.items }
    ensures fresh { (mark : PairMark Opening) → AreNewSeats mark seats.items → AreFresh mark readers.items
        → (k : ℕ) (pass : PassView) → slice_get result.items k ≡ Some pass
        → pass ≡ fresh_pass (id_of turn.now) mark k }
{
    while !seats.is_empty() {
        let seat = seats.remove(0).rest();
        let Some(reader) = readers.pop() else {
            unreachable!()
        };
        passes.push_reserved(Pass {
            parts: Some(Parts { seat, reader }),
            has_settled: false,
        });
    }
    seats.destroy_empty();
    passes
}

/// Puts an area with its end that shows behind a turn.
fn turn_with<D: Disk, R: Wait>(
    rt: &R,
    alloc: Global,
    state: ShownArea<D>,
    readers: Vec<IndexReader>,
    passes: Vec<Pass>,
    nodes: u32,
) -> Result<(SharedArea<D>, Vec<Pass>), OpenArea<D>>
    requires kept { IsKept D.device state (history_mark D.device state) [] }
    requires opening { (history_mark D.device state).opening ≡ opening_of D.device state.area }
    requires nodes { (0 < nodes) × (nodes ≤ MOST_NODES + 1) }
    requires count { length readers.items ≡ nodes }
    requires fresh { AreFresh (history_mark D.device state) readers.items }
    requires room { (passes.items ≡ []) × (nodes ≤ vec_capacity passes) }
    ensures ok { IfOk result (λ r. IsShared D.device state.area nodes r.0 r.1.items) }
    ensures err { IfErr result (λ back. back ≡ state.area) }
{
    let origin = state.shower.tell();
    match AreaTurn::new(alloc, state, nodes) {
        Ok((turn, seats)) => {
            let passes = join(&turn, seats, readers, passes);
            Ok((SharedArea { turn, origin }, passes))
        }
        Err(state) => {
            let ShownArea {
                area,
                shower,
                doubted: _,
            } = state;
            shower.close(rt);
            Err(area)
        }
    }
}

impl<D: Disk> SharedArea<D> {
    /// Shares an area at rest among so many nodes, from 1 to 33, and makes their passes, numbered from 1 in their order. What looks
    /// see is made with it: two indexes of the area, with the room for all that it may have.
    ///
    /// `Err` hands the area back, for want of memory alone. It waits for nobody.
    pub fn new<R: Wait>(
        rt: &R,
        alloc: Global,
        area: OpenArea<D>,
        nodes: u32,
    ) -> Result<(SharedArea<D>, Vec<Pass>), OpenArea<D>>
        requires rest { HasRest D.device area }
        requires nodes { (0 < nodes) × (nodes ≤ MOST_NODES + 1) }
        ensures ok { IfOk result (λ r. IsShared D.device area nodes r.0 r.1.items) }
        ensures err { IfErr result (λ back. back ≡ area) }
    {
        let Ok(passes) = Vec::with_capacity(alloc, nodes as usize) else {
            return Err(area);
        };
        let Ok((first, second)) = indexes(alloc, &area) else {
            return Err(area);
        };
        let Ok((shower, readers)) = ends::<D, Brand, R>(rt, alloc, &area, first, second, nodes)
        else {
            return Err(area);
        };
        let state = ShownArea {
            area,
            shower,
            doubted: IndexChange::none(alloc),
        };
        turn_with(rt, alloc, state, readers, passes, nodes)
    }
}
