//! What looks see is brought up to the history.
ghost use Rattle.std.specs.Prelude.{◌≡◌, ◌≤◌, fold, length};
ghost use mathlib.Core.List.{IsPrefix};
ghost use Rattle.jb_publish.specs.Accounts.{account_of, told_with};
ghost use Rattle.jb_publish.specs.Marks.{ValueStandsFrom, opening_at};
ghost use Rattle.jb_publish.specs.Publications.{publication_of, shown_with};
ghost use Rattle.jb_turn.specs.Seats.{front};
ghost use Rattle.jb_shared.specs.Showing.{CanShow, HasShown, IsFirm};
ghost use Rattle.jb_shared.specs.Shows.{IsShownAs, index_changed};

use crate::change::IndexChange;
use crate::published::{IndexReader, IndexShower};
use crate::shared::AreaSeat;
use crate::shown::ShownArea;
use jb_disk::Disk;
use jb_model::Entry;
use jb_publish::NamesList;
use jb_turn::Held;
use std::alloc::Global;
use std::marker::Brand;
use std::sync::Wait;

/// The reader learns all that is shown, which is no less than it was told.
pub(crate) fn inform(shower: &IndexShower, reader: &mut IndexReader)
    requires mark { (account_of reader.old).mark ≡ (publication_of shower.now).mark }
    requires grown { length (account_of reader.old).told ≤ length (publication_of shower.now).list }
    ensures { account_of reader.new ≡ told_with (account_of reader.old) (publication_of shower.now).list }
{
    reader.learn(shower.tell());
}

/// Shows all that is queued, as the whole history that the seat has seen.
fn show_front<D: Disk, J: NamesList<Entry>, R: Wait>(
    rt: &R,
    seat: &AreaSeat<D>,
    shower: IndexShower,
    count: u64,
) -> IndexShower
    requires names { J.items ≡ front seat.now }
    requires longer { IsPrefix (publication_of shower).list (front seat.now)
        × (count ≡ length (front seat.now)) }
    requires stands { ValueStandsFrom IsShownAs (opening_at (publication_of shower).mark) (fold index_changed
        (publication_of shower).value (publication_of shower).queued) (front seat.now) }
    ensures { publication_of result ≡ shown_with index_changed (publication_of shower) (front seat.now) }
{
    shower.show::<J, R>(rt, count)
}

/// Shows the whole history that the seat has seen, with the change that is kept where it is done; it is then kept no longer. The area is
/// settled then, so that no crash takes back what is shown.
pub(crate) fn show<D: Disk, R: Wait>(
    rt: &R,
    alloc: Global,
    seat: &AreaSeat<D>,
    held: Held<ShownArea<D>>,
    done: bool,
) -> Held<ShownArea<D>>
    requires can { CanShow held.state done (front seat.now) }
    requires firm { IsFirm D.device held.state (front seat.now) }
    requires count { held.count ≡ length (front seat.now) }
    ensures shown { HasShown held.state result.state done (front seat.now) }
    ensures count { result.count ≡ held.count }
{
    let Held { state, count } = held;
    let ShownArea {
        area,
        mut shower,
        doubted,
    } = state;
    if done {
        shower.put(doubted);
    }
    let shower = show_front::<D, Brand, R>(rt, seat, shower, count);
    Held {
        state: ShownArea {
            area,
            shower,
            doubted: IndexChange::none(alloc),
        },
        count,
    }
}
