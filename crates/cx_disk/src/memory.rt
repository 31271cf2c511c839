//! A disk in memory: some of its calls fail, and a crash may tear what was not synced.
ghost use Rattle.std.specs.Prelude.{◌≡◌, ◌+◌, ◌≤◌, ◌++◌, [], ◌∷◌, Some, true, false, length, vec_capacity};
ghost use Rattle.std.proofs.Common.{sym, ap, subst, ◌∙◌};
ghost use Rattle.std.proofs.lemmas.Option.{same_Some};
ghost use Rattle.cx_disk.specs.Disk.{written};
ghost use Rattle.cx_disk.specs.MemDisk.{state_after, MayLeave, LeftSince, note_of_call, notes_of_calls, made_write, made_sync, is_within, all_within};
ghost use Rattle.cx_disk.specs.MemDiskLaws.{seen_is_left, left_now, left_only_now, vec_small};

use crate::{Disk, Failed};
use cx_base::Faults;

/// A call that changed what a crash may leave.
#[derive(Clone, Copy)]
pub enum Call {
    /// Its bytes are at this place among those that all writes have written.
    Write { at: u64, from: usize, len: usize },
    WriteFailed { at: u64, len: usize },
    Cut { at: u64 },
    CutFailed { at: u64 },
    Sync,
}

#[derive(Drop)]
pub struct MemDisk {
    pub(crate) first: Vec<u8>,
    pub(crate) written: Vec<u8>,
    pub(crate) calls: Vec<Call>,
    pub(crate) bytes: Vec<u8>,
    pub(crate) synced: Vec<u8>,
    pub(crate) fails: Vec<u64>,
    pub(crate) stop: Option<u64>,
    pub(crate) made: u64,
    pub(crate) faults: Faults,
    ghost within: { all_within (length written.items) calls.items ≡ true },
    ghost tells: { bytes.items
        ≡ (state_after first.items (notes_of_calls written.items calls.items)).seen },
    ghost keeps: { synced.items
        ≡ (state_after first.items (notes_of_calls written.items calls.items)).synced },
}

/// Whether the disk makes no call any more from this one on.
fn is_stopped(stop: Option<u64>, call: u64) -> bool {
    match stop {
        Some(first) => first <= call,
        None => false,
    }
}

/// Writes over what is there and past the end, in room that was taken before.
pub(crate) fn write_over(file: &mut Vec<u8>, at: usize, bytes: &[u8])
    requires place { at ≤ length file.old.items }
    requires room { at + length bytes.now ≤ vec_capacity file.old }
    ensures { file.new.items ≡ written at bytes.now file.old.items }
{
    if bytes.len() <= file.len() - at {
        file[at..at + bytes.len()].copy_from_slice(bytes);
    } else {
        file.truncate(at);
        file.extend_from_slice(bytes).unwrap();
    }
}

/// Notes a call, where there is room for a note.
fn note(written: &[u8], calls: &mut Vec<Call>, call: Call) -> bool
    requires call { is_within (length written.now) call ≡ true }
    requires calls { all_within (length written.now) calls.old.items ≡ true }
    ensures added { result ≡ true → notes_of_calls written.now calls.new.items
        ≡ notes_of_calls written.now calls.old.items ++ note_of_call written.now call ∷ [] }
    ensures same { result ≡ false
        → notes_of_calls written.now calls.new.items ≡ notes_of_calls written.now calls.old.items }
    ensures within { all_within (length written.now) calls.new.items ≡ true }
{
    if calls.len() == calls.capacity() {
        return false;
    }
    calls.push_reserved(call);
    true
}

fn append(written: &mut Vec<u8>, bytes: &[u8])
    requires { length written.old.items + length bytes.now ≤ vec_capacity written.old }
    ensures { written.new.items ≡ written.old.items ++ bytes.now }
{
    written.extend_from_slice(bytes).unwrap();
}

/// Notes a write and its bytes, where there is room for both.
fn note_write(written: &mut Vec<u8>, calls: &mut Vec<Call>, at: u64, bytes: &[u8]) -> bool
    requires { all_within (length written.old.items) calls.old.items ≡ true }
    ensures added { result ≡ true → notes_of_calls written.new.items calls.new.items
        ≡ notes_of_calls written.old.items calls.old.items ++ made_write at bytes.now ∷ [] }
    ensures same { result ≡ false → notes_of_calls written.new.items calls.new.items
        ≡ notes_of_calls written.old.items calls.old.items }
    ensures within { all_within (length written.new.items) calls.new.items ≡ true }
{
    if written.capacity() - written.len() < bytes.len() || calls.len() == calls.capacity() {
        return false;
    }
    let from = written.len();
    let len = bytes.len();
    append(written, bytes);
    calls.push_reserved(Call::Write { at, from, len });
    true
}

/// Notes a sync, and what a read gives as what was synced last, where there is room for both.
fn note_sync(written: &[u8], calls: &mut Vec<Call>, bytes: &[u8], synced: &mut Vec<u8>) -> bool
    requires { all_within (length written.now) calls.old.items ≡ true }
    ensures added { result ≡ true → notes_of_calls written.now calls.new.items
        ≡ notes_of_calls written.now calls.old.items ++ made_sync ∷ [] }
    ensures synced { result ≡ true → synced.new.items ≡ bytes.now }
    ensures same { result ≡ false
        → notes_of_calls written.now calls.new.items ≡ notes_of_calls written.now calls.old.items }
    ensures same_synced { result ≡ false → synced.new.items ≡ synced.old.items }
    ensures within { all_within (length written.now) calls.new.items ≡ true }
{
    if synced.capacity() < bytes.len() || !note(written, calls, Call::Sync) {
        return false;
    }
    synced.clear();
    synced.extend_from_slice(bytes).unwrap();
    true
}

impl Disk for MemDisk {
    ghost seen = { λ m. Some m.bytes.items };

    ghost may_leave = { λ m.
        MayLeave (state_after m.first.items (notes_of_calls m.written.items m.calls.items)) };

    ghost moment = { λ m. length (notes_of_calls m.written.items m.calls.items) };

    ghost left_since = { λ m.
        LeftSince m.first.items (notes_of_calls m.written.items m.calls.items) };

    ghost faults = { λ m. m.faults };

    ghost size = { λ m. length m.bytes.items };

    ghost told_size = { λ m file is_seen. ap length (sym (same_Some _ _ is_seen)) };

    ghost told_is_left = { λ m file is_seen. subst
        (MayLeave (state_after m.first.items (notes_of_calls m.written.items m.calls.items)))
        (sym m.tells ∙ same_Some _ _ is_seen)
        (seen_is_left m.first.items (notes_of_calls m.written.items m.calls.items)) };

    ghost size_fits = { λ m. vec_small m.bytes };

    ghost counts_now = { λ m t c le now.
        left_now m.first.items (notes_of_calls m.written.items m.calls.items) t c le now };

    ghost only_now = { λ m c left.
        left_only_now m.first.items (notes_of_calls m.written.items m.calls.items) c left };

    fn len(&self) -> u64 {
        self.bytes.len() as u64
    }

    fn read(&mut self, at: u64, buf: &mut [u8]) -> Result<(), Failed> {
        let call = self.made;
        self.made = self.made.saturating_add(1);
        if is_stopped(self.stop, call) {
            self.faults.add();
            return Err(Failed);
        }
        let fails = self.fails.contains(&call);
        if fails {
            self.faults.add();
            return Err(Failed);
        }
        let from = at as usize;
        buf.copy_from_slice(&self.bytes[from..from + buf.len()]);
        Ok(())
    }

    fn write_at(&mut self, at: u64, bytes: &[u8]) -> Result<(), Failed> {
        let call = self.made;
        self.made = self.made.saturating_add(1);
        if is_stopped(self.stop, call) {
            self.faults.add();
            return Err(Failed);
        }
        let fails = self.fails.contains(&call);
        if fails {
            let len = bytes.len();
            note(
                &self.written,
                &mut self.calls,
                Call::WriteFailed { at, len },
            );
            self.faults.add();
            return Err(Failed);
        }
        let place = at as usize;
        if self.bytes.capacity() < place + bytes.len() {
            self.faults.add();
            return Err(Failed);
        }
        if !note_write(&mut self.written, &mut self.calls, at, bytes) {
            self.faults.add();
            return Err(Failed);
        }
        write_over(&mut self.bytes, place, bytes);
        Ok(())
    }

    fn cut(&mut self, at: u64) -> Result<(), Failed> {
        let call = self.made;
        self.made = self.made.saturating_add(1);
        if is_stopped(self.stop, call) {
            self.faults.add();
            return Err(Failed);
        }
        let fails = self.fails.contains(&call);
        if fails {
            note(&self.written, &mut self.calls, Call::CutFailed { at });
            self.faults.add();
            return Err(Failed);
        }
        if !note(&self.written, &mut self.calls, Call::Cut { at }) {
            self.faults.add();
            return Err(Failed);
        }
        self.bytes.truncate(at as usize);
        Ok(())
    }

    fn sync(&mut self) -> Result<(), Failed> {
        let call = self.made;
        self.made = self.made.saturating_add(1);
        if is_stopped(self.stop, call) {
            self.faults.add();
            return Err(Failed);
        }
        let fails = self.fails.contains(&call);
        if fails {
            self.faults.add();
            return Err(Failed);
        }
        if !note_sync(
            &self.written,
            &mut self.calls,
            &self.bytes,
            &mut self.synced,
        ) {
            self.faults.add();
            return Err(Failed);
        }
        Ok(())
    }
}
