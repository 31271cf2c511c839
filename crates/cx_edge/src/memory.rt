//! A source and a sink in memory, with lists of the calls that fail.

ghost use Rattle.std.specs.Prelude.{◌≡◌, ◌≤◌, [], IfOk, length};
ghost use Rattle.cx_base.specs.Faults.{Rises};
ghost use Rattle.cx_base.specs.Grid.{is_in};
ghost use Rattle.cx_edge.specs.Memory.{source_left, source_faults, source_read, source_after, sink_taken, sink_faults, sink_write, sink_after};
ghost use Rattle.cx_edge.specs.Sink.{Writes, WriteKeepsCount};
ghost use Rattle.cx_edge.specs.Source.{ReadsBytes, ReadKeepsCount};
ghost use Rattle.cx_edge.specs.declared.sink.WriteEnd.TheVariants as write_end;
ghost use Rattle.cx_edge.specs.declared.source.ReadEnd.TheVariants as read_end;

use crate::{ReadEnd, Sink, Source, WriteEnd};
use cx_base::{Faults, NoMemory};
use std::alloc::Global;
use std::marker::Model;

pub(crate) fn is_failing(failing: &[u64], call: u64) -> bool
    ensures { result ≡ is_in call failing.now }
{
    failing.iter().any(|number| *number == call)
}

/// Gives these bytes, and fails at these calls.
#[derive(Drop)]
pub struct MemSource {
    bytes: Vec<u8>,
    start: usize,
    call: u64,
    failing: Vec<u64>,
    faults: Faults,
}

impl Model for MemSource {
    ghost use Rattle.std.specs.Prelude.{◌≤◌, drop, vec_len};
    ghost use Rattle.cx_edge.specs.Memory.{SourceState};

    ghost Value = { SourceState };

    ghost view = { λ s. record {
      left = drop s.start s.bytes.items;
      call = s.call;
      failing = s.failing.items;
      faults = s.faults;
    } };

    ghost invariant = { λ s. s.start ≤ vec_len s.bytes };
}

impl MemSource {
    /// The source that gives these bytes, each read as many as there is room for, and fails at the calls with these numbers,
    /// which are counted from 0.
    pub fn new(bytes: Vec<u8>, failing: Vec<u64>) -> Self
        ensures { result
            ≡ record { left = bytes.items; call = 0; failing = failing.items; faults = 0 } }
    {
        MemSource {
            bytes,
            start: 0,
            call: 0,
            failing,
            faults: Faults::none(),
        }
    }
}

impl Source for MemSource {
    ghost left = { source_left };

    ghost faults = { source_faults };

    fn read(&mut self, buffer: &mut [u8]) -> ReadEnd
        ensures answer { result ≡ source_read self.old (length buffer.old) }
        ensures after { self.new ≡ source_after self.old (length buffer.old) }
        ensures bytes { ReadsBytes (source_left self.old) (source_left self.new) result buffer.new }
        ensures cause { result ≡ read_end.Failed
            → Rises (source_faults self.old) (source_faults self.new) }
        ensures still { ReadKeepsCount result (source_faults self.old) (source_faults self.new) }
        ensures later { source_faults self.old ≤ source_faults self.new }
    {
        let call = self.call;
        self.call = call.saturating_add(1);
        if is_failing(&self.failing, call) {
            self.faults.add();
            return ReadEnd::Failed;
        }
        let count = buffer.len().min(self.bytes.len() - self.start);
        let end = self.start + count;
        buffer[..count].copy_from_slice(&self.bytes[self.start..end]);
        self.start = end;
        ReadEnd::Got(count)
    }
}

/// Takes bytes up to its room, and fails at these calls.
#[derive(Drop)]
pub struct MemSink {
    taken: Vec<u8>,
    room: usize,
    call: u64,
    failing: Vec<u64>,
    faults: Faults,
}

impl Model for MemSink {
    ghost use Rattle.std.specs.Prelude.{◌≤◌, vec_len, vec_capacity};
    ghost use Rattle.cx_edge.specs.Memory.{SinkState};

    ghost Value = { SinkState };

    ghost view = { λ s. record {
      taken = s.taken.items;
      room = s.room;
      call = s.call;
      failing = s.failing.items;
      faults = s.faults;
    } };

    ghost invariant = { λ s. (vec_len s.taken ≤ s.room) × (s.room ≤ vec_capacity s.taken) };
}

impl MemSink {
    /// The sink that takes `room` bytes in all, each write the whole piece, and fails at the calls with these numbers, which
    /// are counted from 0, and where a piece is longer than the room that is left. All memory is taken here, none by
    /// a write.
    pub fn new(alloc: Global, room: usize, failing: Vec<u64>) -> Result<Self, NoMemory>
        ensures { IfOk result (λ sink. sink
            ≡ record { taken = []; room = room; call = 0; failing = failing.items; faults = 0 }) }
    {
        Ok(MemSink {
            taken: Vec::with_capacity(alloc, room)?,
            room,
            call: 0,
            failing,
            faults: Faults::none(),
        })
    }

    /// The bytes that it has taken.
    pub fn as_slice(&self) -> &[u8]
        ensures { result.now ≡ self.now.taken }
    {
        &self.taken
    }
}

impl Sink for MemSink {
    ghost taken = { sink_taken };

    ghost faults = { sink_faults };

    fn write(&mut self, piece: &[u8]) -> WriteEnd
        ensures answer { result ≡ sink_write self.old piece.now }
        ensures after { self.new ≡ sink_after self.old piece.now }
        ensures bytes { Writes (sink_taken self.old) (sink_taken self.new) result piece.now }
        ensures cause { result ≡ write_end.Failed
            → Rises (sink_faults self.old) (sink_faults self.new) }
        ensures still { WriteKeepsCount result (sink_faults self.old) (sink_faults self.new) }
        ensures later { sink_faults self.old ≤ sink_faults self.new }
    {
        let call = self.call;
        self.call = call.saturating_add(1);
        if is_failing(&self.failing, call) || piece.len() > self.room - self.taken.len() {
            self.faults.add();
            return WriteEnd::Failed;
        }
        self.taken.extend_from_slice(piece).unwrap();
        WriteEnd::Took(piece.len())
    }
}
