//! How the stores of hosted roles are given back.

ghost use Rattle.std.specs.Prelude.{◌≡◌, []};
ghost use Rattle.cx_course.specs.Alike.{AreDistinct};
ghost use Rattle.cx_seat.specs.Guest.{hosted_in};
ghost use Rattle.cx_seat.specs.Closing.{AreGivenBack};
ghost use Rattle.cx_seat.specs.Opening.{lent_to};

use crate::Seat;
use cx_edge::Depot;
use cx_journal::RecordStore;

/// Gives the stores of each role that has one or two back to the depot, which then holds what they hold, and adds their
/// faults to the role's count.
pub fn close_seats<D: Depot>(depot: &mut D, seats: Vec<Seat<RecordStore<D::Store>>>)
    requires out { D.out depot.old ≡ lent_to seats.items }
    requires distinct { AreDistinct (hosted_in seats.items) }
    ensures out { D.out depot.new ≡ [] }
    ensures tells_same { D.tells depot.new ≡ D.tells depot.old }
    ensures back { AreGivenBack D.Depot D.Store.Disk seats.items depot.old depot.new }
{
    for seat in seats {
        let me = seat.name();
        match seat.into_keeper() {
            Some(RecordStore::One { journal }) => depot.close(me, 0, journal.into_disk()),
            Some(RecordStore::Two { twin }) => {
                let (first, second) = twin.into_disks();
                depot.close(me, 0, first);
                depot.close(me, 1, second);
            }
            None => {}
        }
    }
}
