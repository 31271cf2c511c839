//! The records in the bytes of a journal.
ghost use Rattle.std.specs.Prelude.{◌≡◌, ◌+◌, ◌<◌, ◌≤◌, ◌^◌, [], ◌∷◌, ◌++◌, length, true, Ok, Err, IfOk, OnOk, IfErr, MatchResult};
ghost use Rattle.cx_keep.specs.declared.keeper.OpenFault.TheVariants as fault;
ghost use Rattle.cx_journal.specs.Found.{IsRead, IsReadFrom, IsStopAt, IsFound, IsFoundFrom, IsFaultOf, IsFaultIn};
ghost use Rattle.cx_journal.specs.Image.{image, image_from};
ghost use Rattle.cx_msg.specs.RecordBytes.{spelling};
ghost use Rattle.cx_journal.specs.Payload.{payload_read, is_kept_by};

use crate::payload::{PayloadFault, payload_from};
use crate::split::{ImageFault, first_record};
use cx_base::{Kind, NoMemory};
use cx_keep::OpenFault;
use cx_letter::Record;
use std::alloc::Global;

/// The records, the places of their gates with that of the closed gate as the last, and that place.
#[derive(Drop)]
pub struct Found {
    pub records: Vec<Record>,
    pub gates: Vec<u64>,
    pub gate: usize,
}

/// The record of a payload that begins at a place.
fn record_at(
    alloc: Global,
    kind: Option<Kind>,
    payload: &[u8],
    at: usize,
) -> Result<Record, ImageFault>
    requires some { 0 < length payload.now }
    requires most { at + length payload.now < 2 ^ 63 }
    ensures read { MatchResult result (λ r. payload_read kind payload.now ≡ Ok r)
        (IsStopAt at (payload_read kind payload.now)) }
    ensures spelled { IfOk result (λ r. payload.now ≡ spelling r) }
    ensures kept { IfOk result (λ r. is_kept_by kind r ≡ true) }
{
    match payload_from(alloc, kind, payload) {
        Ok(what) => Ok(what),
        Err(fault) => match fault {
            PayloadFault::Bad(place) => Err(ImageFault::Break(at + place)),
            PayloadFault::NoMemory => Err(ImageFault::NoMemory),
        },
    }
}

fn push_found(
    records: &mut Vec<Record>,
    gates: &mut Vec<u64>,
    what: Record,
    gate: u64,
) -> Result<(), NoMemory>
    ensures records { OnOk result (records.new.items ≡ records.old.items ++ what ∷ []) }
    ensures gates { OnOk result (gates.new.items ≡ gates.old.items ++ gate ∷ []) }
{
    records.push(what)?;
    gates.push(gate)?;
    Ok(())
}

fn push_gate(gates: &mut Vec<u64>, gate: u64) -> Result<(), NoMemory>
    ensures { OnOk result (gates.new.items ≡ gates.old.items ++ gate ∷ []) }
{
    gates.push(gate)?;
    Ok(())
}

/// The records of the bytes from a place on.
fn records_in(
    alloc: Global,
    kind: Option<Kind>,
    bytes: &[u8],
    start: usize,
) -> Result<Found, ImageFault>
    requires start { start ≤ length bytes.now }
    requires most { length bytes.now < 2 ^ 63 }
    ensures image { IsReadFrom kind start bytes.now result }
    ensures found { IfOk result (λ f. IsFoundFrom kind start bytes.now f) }
{
    let mut records = Vec::new(alloc);
    let mut gates = Vec::new(alloc);
    let mut left = &bytes[start..];
    let mut at = start;
    'reading: loop {
        match first_record(alloc, kind, left, at) {
            Ok(None) => {
                return match push_gate(&mut gates, at as u64) {
                    Ok(()) => Ok(Found {
                        records,
                        gates,
                        gate: at,
                    }),
                    Err(_) => Err(ImageFault::NoMemory),
                };
            }
            Ok(Some(split)) => {
                let what = match record_at(alloc, kind, split.payload, at + 5) {
                    Ok(what) => what,
                    Err(stop) => return Err(stop),
                };
                match push_found(&mut records, &mut gates, what, at as u64) {
                    Ok(()) => {}
                    Err(_) => return Err(ImageFault::NoMemory),
                }
                at += 5 + split.payload.len();
                left = split.after;
            }
            Err(stop) => return Err(stop),
        }
    }
}

/// The records of at least two bytes.
fn plain_records(alloc: Global, kind: Option<Kind>, bytes: &[u8]) -> Result<Found, ImageFault>
    requires least { 2 ≤ length bytes.now }
    requires most { length bytes.now < 2 ^ 63 }
    ensures image { IsRead kind bytes.now result }
    ensures found { IfOk result (λ f. IsFound kind bytes.now f) }
{
    records_in(alloc, kind, bytes, 0)
}

/// No records, and the closed gate at the start.
pub(crate) fn first_gate(alloc: Global) -> Result<Found, NoMemory>
    ensures none { IfOk result (λ f. f.records.items ≡ []) }
    ensures gates { IfOk result (λ f. f.gates.items ≡ 0 ∷ []) }
    ensures gate { IfOk result (λ f. f.gate ≡ 0) }
{
    let mut gates = Vec::new(alloc);
    push_gate(&mut gates, 0)?;
    Ok(Found {
        records: Vec::new(alloc),
        gates,
        gate: 0,
    })
}

/// The records of at least two bytes, for a role of the kind or of any kind. `NotJournal` names the first break: a length out of
/// 1..=32,768 at its first byte; a tag or a field that is bad, at its first byte; bytes that are left in a payload, at the
/// first of them; the end where a length, a payload or a gate should be, with no byte. A payload that the end cuts may have such
/// a tag, field or bytes before the end, and then breaks there.
pub(crate) fn found_in(alloc: Global, kind: Option<Kind>, bytes: &[u8]) -> Result<Found, OpenFault>
    requires least { 2 ≤ length bytes.now }
    requires most { length bytes.now < 2 ^ 63 }
    ensures found { IfOk result (λ f. IsFound kind bytes.now f) }
    ensures image { IfOk result (λ f. image kind bytes.now ≡ Ok f.records.items) }
    ensures broken { IfErr result (IsFaultOf kind bytes.now) }
    ensures cause { result ≡ Err fault.Failed → ⊥ }
{
    match plain_records(alloc, kind, bytes) {
        Ok(found) => Ok(found),
        Err(ImageFault::Break(at)) => Err(OpenFault::NotJournal {
            at: at as u64,
            byte: bytes.get(at).copied(),
        }),
        Err(ImageFault::NoMemory) => Err(OpenFault::NoMemory),
    }
}

/// The same of the bytes after the first two, which are a generation's. A place counts from the first byte.
pub(crate) fn found_after(
    alloc: Global,
    kind: Option<Kind>,
    bytes: &[u8],
) -> Result<Found, OpenFault>
    requires least { 2 ≤ length bytes.now }
    requires most { length bytes.now < 2 ^ 63 }
    ensures found { IfOk result (λ f. IsFoundFrom kind 2 bytes.now f) }
    ensures image { IfOk result (λ f. image_from kind 2 bytes.now ≡ Ok f.records.items) }
    ensures broken { IfErr result (IsFaultIn (image_from kind 2 bytes.now) bytes.now) }
    ensures cause { result ≡ Err fault.Failed → ⊥ }
{
    match records_in(alloc, kind, bytes, 2) {
        Ok(found) => Ok(found),
        Err(ImageFault::Break(at)) => Err(OpenFault::NotJournal {
            at: at as u64,
            byte: bytes.get(at).copied(),
        }),
        Err(ImageFault::NoMemory) => Err(OpenFault::NoMemory),
    }
}
