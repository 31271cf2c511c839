//! A stop of a hosted role is one of the model's crashes.

ghost use Rattle.std.specs.Prelude.{◌≡◌, ◌⊎◌, List, Ok, Result};
ghost use Rattle.cx_base.specs.declared.cluster.Cluster.{Cluster};
ghost use Rattle.cx_base.specs.declared.event.Cut.TheVariants.{Kept, Torn, Whole};
ghost use Rattle.cx_base.specs.declared.event.Event.{Event};
ghost use Rattle.cx_base.specs.declared.role.RoleId.{RoleId};
ghost use Rattle.cx_journal.specs.Files.{Files, files_records};
ghost use Rattle.cx_journal.specs.Store.{IsStoreChange, StoreLeftSince, StoreMayLeave, store_told};
ghost use Rattle.cx_journal.specs.declared.store.RecordStore.{RecordStore};
ghost use Rattle.cx_keep.specs.declared.keeper.KeepFault.{KeepFault};
ghost use Rattle.cx_letter.specs.declared.input.Written.{Written};
ghost use Rattle.cx_course.specs.Changing.{change_for};
ghost use Rattle.cx_seat.specs.Stops.{IsNextChange, IsOfRun};

use cx_disk::Disk;

/// A law of stores and runs. A role's store has what the role kept in a run, and in the next event the role appends a
/// record, or puts its list anew: whatever a crash leaves at any moment of that change is the store of the run in which
/// the event is cut, the change lost or kept; and once the change was answered Ok, whatever a crash leaves is that of the
/// whole event. It is a store of the role's own kind, on one disk or over two, and each of these runs is lawful. So a node
/// that is stopped at any write and opened anew goes on in a run of the model.
pub fn stops_are_crashes<D: Disk>()
    ensures within { (c : Cluster) (es : List Event) (e : Event) (me : RoleId) (what : Written)
        (old new : RecordStore D) (answer : Result (Unit {0}) KeepFault) (files : Files)
        → IsNextChange D.seen c es e me what old
        → IsStoreChange D.Disk old (change_for (files_records (store_told D.seen old)) what) answer
        new → StoreLeftSince D.moment D.left_since old new files
        → IsOfRun c es e Torn me files ⊎ IsOfRun c es e Kept me files }
    ensures after { (c : Cluster) (es : List Event) (e : Event) (me : RoleId) (what : Written)
        (old new : RecordStore D) (files : Files) → IsNextChange D.seen c es e me what old
        → IsStoreChange D.Disk old (change_for (files_records (store_told D.seen old)) what) (Ok tt)
        new → StoreMayLeave D.may_leave new files → IsOfRun c es e Whole me files }
{}
