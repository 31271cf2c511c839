//! The bytes of a whole list of records, which a renewal writes at once.
ghost use Rattle.std.specs.Prelude.{◌≡◌, ◌+◌, ◌++◌, [], ◌∷◌, length, IfOk, OnOk, IsTrue};
ghost use Rattle.cx_keep.specs.Keeper.{all_fit};
ghost use Rattle.cx_letter.specs.Records.{fits};
ghost use Rattle.cx_msg.specs.RecordBytes.{spelling};
ghost use Rattle.cx_journal.specs.Journal.{frame, frames, gates_from};
ghost use Rattle.cx_journal.specs.Payload.{payloads};

use cx_base::NoMemory;
use cx_letter::Record;
use cx_msg::record_into;
use cx_wire::put_u32;
use std::alloc::Global;

/// The bytes after the first one, 4: the generation, the records and a closed gate. Beside it the places of the gates.
#[derive(Drop)]
pub(crate) struct Whole {
    pub(crate) bytes: Vec<u8>,
    pub(crate) gates: Vec<u64>,
    pub(crate) gate: u64,
}

// Puts a record after an open gate.
fn put_frame(alloc: Global, what: &Record, bytes: &mut Vec<u8>) -> Result<(), NoMemory>
    requires { IsTrue (fits what.now) }
    ensures { OnOk result (bytes.new.items ≡ bytes.old.items ++ frame (spelling what.now)) }
{
    let mut payload = Vec::new(alloc);
    record_into(alloc, what, &mut payload)?;
    bytes.push(1)?;
    put_u32(bytes, payload.len() as u32)?;
    bytes.extend_from_slice(&payload)?;
    Ok(())
}

/// The bytes of these records after a generation.
pub(crate) fn whole_of(alloc: Global, generation: u8, records: &[Record]) -> Result<Whole, NoMemory>
    requires { IsTrue (all_fit records.now) }
    ensures bytes { IfOk result
        (λ w. w.bytes.items ≡ generation ∷ (frames (payloads records.now) ++ 0 ∷ [])) }
    ensures gates { IfOk result (λ w. w.gates.items ≡ gates_from 2 (payloads records.now)) }
    ensures gate { IfOk result (λ w. w.gate ≡ 2 + length (frames (payloads records.now))) }
{
    let mut bytes = Vec::new(alloc);
    let mut gates = Vec::new(alloc);
    bytes.push(generation)?;
    for what in records {
        gates.push(bytes.len() as u64 + 1)?;
        put_frame(alloc, what, &mut bytes)?;
    }
    let gate = bytes.len() as u64 + 1;
    gates.push(gate)?;
    bytes.push(0)?;
    Ok(Whole { bytes, gates, gate })
}
