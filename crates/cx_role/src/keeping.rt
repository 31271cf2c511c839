//! The one change of a role's store in a step: an append, or a renewal.

ghost use Rattle.std.specs.Prelude.{◌≡◌, false, Ok, Err, IfOk, IsErrOf, IsTrue, OnOk};
ghost use Rattle.cx_keep.specs.declared.keeper.KeepFault.TheVariants as fault;
ghost use Rattle.cx_keep.specs.Keeper.{all_fit};
ghost use Rattle.cx_letter.specs.Records.{fits};
ghost use Rattle.cx_role.specs.Role.{Refuses};

use crate::StepFault;
use cx_keep::{Keeper, Renew};
use cx_letter::Record;

/// Keeps the record of a step. A role whose keeper failed lives no longer, and has to be opened again.
pub fn keep<K: Keeper>(keeper: &mut K, live: &mut bool, what: &Record) -> Result<(), StepFault>
    requires { IsTrue (fits what.now) }
    ensures kept { IfOk result (λ _. K.append_gives keeper.old what.now (Ok tt) keeper.new) }
    ensures lives { OnOk result (live.new ≡ live.old) }
    ensures refused { IsErrOf result StepFault.NoMemory
        → Refuses K.append_gives keeper.old keeper.new }
    ensures tells_same { K.tells keeper.new ≡ K.tells keeper.old }
    ensures lives_on { IsErrOf result StepFault.NoMemory → live.new ≡ live.old }
    ensures failed { IsErrOf result StepFault.Failed
        → K.append_gives keeper.old what.now (Err fault.Failed) keeper.new }
    ensures dead { IsErrOf result StepFault.Failed → live.new ≡ false }
{
    match keeper.append(what) {
        Ok(()) => Ok(()),
        Err(StepFault::NoMemory) => Err(StepFault::NoMemory),
        Err(StepFault::Failed) => {
            *live = false;
            Err(StepFault::Failed)
        }
    }
}

/// Puts a role's list anew. A role whose keeper failed lives no longer, and has to be opened again.
pub fn renew<K: Renew>(keeper: &mut K, live: &mut bool, records: &[Record]) -> Result<(), StepFault>
    requires { IsTrue (all_fit records.now) }
    ensures renewed { IfOk result (λ _. K.renew_gives keeper.old records.now (Ok tt) keeper.new) }
    ensures lives { OnOk result (live.new ≡ live.old) }
    ensures refused { IsErrOf result StepFault.NoMemory
        → K.renew_gives keeper.old records.now (Err fault.NoMemory) keeper.new }
    ensures tells_same { K.tells keeper.new ≡ K.tells keeper.old }
    ensures lives_on { IsErrOf result StepFault.NoMemory → live.new ≡ live.old }
    ensures failed { IsErrOf result StepFault.Failed
        → K.renew_gives keeper.old records.now (Err fault.Failed) keeper.new }
    ensures dead { IsErrOf result StepFault.Failed → live.new ≡ false }
{
    match keeper.renew(records) {
        Ok(()) => Ok(()),
        Err(StepFault::NoMemory) => Err(StepFault::NoMemory),
        Err(StepFault::Failed) => {
            *live = false;
            Err(StepFault::Failed)
        }
    }
}
