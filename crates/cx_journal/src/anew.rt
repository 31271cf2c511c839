//! A list put anew on the disk that is not live.
ghost use Rattle.std.specs.Prelude.{◌≡◌, ◌⊎◌, ◌+◌, ◌<◌, ◌≤◌, is_some, not, Bool, List, ℕ, Some, length, IfOk, IsErrOf, IsTrue};
ghost use Rattle.cx_base.specs.Faults.{Rises};
ghost use Rattle.cx_letter.specs.declared.kept.Record.{Record};
ghost use Rattle.cx_disk.specs.Disk.{LeavesOnly};
ghost use Rattle.cx_keep.specs.Keeper.{all_fit};
ghost use Rattle.cx_journal.specs.Generation.{IsGeneration, generation, next_generation};
ghost use Rattle.cx_journal.specs.Journal.{frames, gates_from};
ghost use Rattle.cx_journal.specs.Pair.{IsTwin, IsLive};
ghost use Rattle.cx_journal.specs.Payload.{payloads};
ghost use Rattle.cx_journal.specs.Twin.{IsEitherPair, IsRenewed};

use crate::renewing::put_anew;
use crate::whole::whole_of;
use cx_disk::Disk;
use cx_keep::KeepFault;
use cx_letter::Record;
use std::alloc::Global;

/// What a renewal gave the disk: its generation, and the places of the gates with that of the closed one as the last.
#[derive(Drop)]
pub struct Renewed {
    pub generation: u8,
    pub gates: Vec<u64>,
    pub gate: u64,
}

fn next_generation(generation: Option<u8>) -> u8
    requires { IsGeneration generation }
    ensures next { result ≡ next_generation generation }
    ensures below { result < 3 }
{
    match generation {
        None => 1,
        Some(one) => (one + 1) % 3,
    }
}

/// Puts these records on the disk that is not live: all memory is taken before the first call.
pub(crate) fn renew_other<D: Disk>(
    alloc: Global,
    other: &mut D,
    live_generation: Option<u8>,
    records: &[Record],
) -> Result<Renewed, KeepFault>
    requires fits { IsTrue (all_fit records.now) }
    requires sound { IsGeneration live_generation }

    // At `Ok` this disk is live, with these records.
    ensures done { (second : Bool) (old : List Record) (live beside : List ℕ)
        → IsLive D.seen D.may_leave other.old beside → IsTwin second (payloads old) live beside
        → live_generation ≡ generation live
        → IfOk result (λ r. IsRenewed D.seen D.may_leave second records.now live r other.new) }

    // At each moment the two disks have the old records or the new ones.
    ensures any_moment { (second : Bool) (old : List Record) (live beside : List ℕ)
        → IsLive D.seen D.may_leave other.old beside → IsTwin second (payloads old) live beside
        → live_generation ≡ generation live
        → LeavesOnly D.moment D.left_since other.old other.new
        (IsEitherPair second old records.now live) }
    ensures generation { IfOk result (λ r. r.generation ≡ next_generation live_generation) }
    ensures below { IfOk result (λ r. r.generation < 3) }
    ensures size { IfOk result (λ r. r.gate < D.size other.new) }
    ensures gates { IfOk result (λ r. r.gates.items ≡ gates_from 2 (payloads records.now)) }
    ensures gate { IfOk result (λ r. r.gate ≡ 2 + length (frames (payloads records.now))) }
    ensures tells { is_some (D.seen other.new) ≡ is_some (D.seen other.old) }
    ensures later { D.faults other.old ≤ D.faults other.new }
    ensures still { (IsErrOf result KeepFault.Failed → ⊥)
        → D.faults other.new ≡ D.faults other.old }
    ensures failed { IsErrOf result KeepFault.Failed
        → Rises (D.faults other.old) (D.faults other.new) }
    ensures no_memory { IsErrOf result KeepFault.NoMemory → other.new ≡ other.old }
{
    let generation = next_generation(live_generation);
    let whole = match whole_of(alloc, generation, records) {
        Ok(whole) => whole,
        Err(_) => return Err(KeepFault::NoMemory),
    };
    match put_anew(other, &whole.bytes) {
        Ok(()) => Ok(Renewed {
            generation,
            gates: whole.gates,
            gate: whole.gate,
        }),
        Err(_) => Err(KeepFault::Failed),
    }
}
