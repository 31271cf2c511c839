//! The lines of a source, one by one.

ghost use Rattle.std.specs.Prelude.{◌≡◌, ◌≤◌, ◌<◌, ◌==◌, ◌+◌, [], length, take, drop, position, IfOk};
ghost use Rattle.std.specs.List.{list_any};
ghost use Rattle.std.specs.Str.Lines.{strip_carriage_return};
ghost use Rattle.cx_base.specs.Faults.{Rises};
ghost use Rattle.cx_edge.specs.declared.lines.Next.TheVariants as next;
ghost use Rattle.cx_edge.specs.Lines.{Cuts, EmptiedAs, Fills, GivesNext, IsFirst, ReadsBehind};
ghost use Rattle.cx_edge.specs.Source.{ReadKeepsCount};
ghost use Rattle.cx_edge.specs.declared.source.ReadEnd.TheVariants as read_end;

use crate::{ReadEnd, Source};
use cx_base::NoMemory;
use std::alloc::Global;
use std::marker::Model;

// A line of 16,384 bytes with its carriage return, and room after it for the bytes of a read.
const ROOM: usize = 20_480;

/// What the next line of a source is.
#[derive(Clone, Copy, PartialEq, Eq)]
pub enum Next {
    /// A line with its line feed.
    Line,
    /// The last line, which has none: the source is at its end.
    Last,
    /// Nothing is left.
    End,
    /// A line that is too long, whether its line feed was read or not.
    Long,
    /// A read failed before the line's end.
    Failed,
}

// What buffered bytes begin with.
#[derive(Clone, Copy)]
enum First {
    // A line of this many bytes, and how many it takes with its line feed.
    Line { len: usize, size: usize },
    Long,
    // A line that goes on after them.
    Open,
}

fn feed_in(bytes: &[u8]) -> Option<usize>
    ensures { result ≡ position (λ b. b == 10) bytes.now }
{
    bytes.iter().position(|byte| *byte == b'\n')
}

fn has_feed(bytes: &[u8]) -> bool
    ensures { result ≡ list_any (λ b. b == 10) bytes.now }
{
    bytes.iter().any(|byte| *byte == b'\n')
}

// How long a part is without one carriage return at its end.
fn text_length(part: &[u8]) -> usize
    ensures { result ≡ length (strip_carriage_return part.now) }
{
    match part {
        [line @ .., b'\r'] => line.len(),
        _ => part.len(),
    }
}

fn first_in(buffered: &[u8], max: usize) -> First
    ensures { IsFirst max buffered.now result }
{
    let place = feed_in(buffered);
    let len = text_length(&buffered[..place.unwrap_or(buffered.len())]);
    match place {
        _ if len > max => First::Long,
        Some(place) => First::Line {
            len,
            size: place + 1,
        },
        None => First::Open,
    }
}

// Moves `count` bytes to the start.
fn move_to_front(bytes: &mut [u8], start: usize, count: usize)
    requires { start + count ≤ length bytes.old }
    ensures moved { take count bytes.new ≡ take count (drop start bytes.old) }
    ensures len { length bytes.new ≡ length bytes.old }
{
    bytes.copy_within(start..start + count, 0);
}

// Reads into the bytes after the first `buffered`.
fn read_behind<S: Source>(source: &mut S, bytes: &mut [u8], buffered: usize) -> ReadEnd
    requires { buffered < length bytes.old }
    ensures bytes { ReadsBehind (S.left source.old) (S.left source.new) buffered bytes.old
        bytes.new result }
    ensures len { length bytes.new ≡ length bytes.old }
    ensures cause { result ≡ read_end.Failed → Rises (S.faults source.old) (S.faults source.new) }
    ensures still { ReadKeepsCount result (S.faults source.old) (S.faults source.new) }
    ensures later { S.faults source.old ≤ S.faults source.new }
{
    source.read(&mut bytes[buffered..])
}

/// Reads a source line by line, through a buffer of 20,480 bytes.
///
/// A line ends with a line feed, which the last may lack, and loses one carriage return at its end.
#[derive(Drop)]
pub struct Lines {
    bytes: Vec<u8>,
    start: usize,
    end: usize,
    text_start: usize,
    text_end: usize,
}

impl Model for Lines {
    ghost use Rattle.std.specs.Prelude.{◌≡◌, ◌≤◌, ◌-◌, take, drop, vec_len};
    ghost use Rattle.cx_edge.specs.Lines.{LinesState};

    ghost Value = { LinesState };

    ghost view = { λ s. record {
      buffered = take (s.end - s.start) (drop s.start s.bytes.items);
      text = take (s.text_end - s.text_start) (drop s.text_start s.bytes.items);
    } };

    ghost invariant = { λ s.
        (s.start ≤ s.end) × (s.end ≤ vec_len s.bytes) × (s.text_start ≤ s.text_end)
        × (s.text_end ≤ vec_len s.bytes) × (vec_len s.bytes ≡ 20480) };
}

impl Lines {
    /// Nothing is buffered yet. All memory is taken here, none by a call.
    pub fn new(alloc: Global) -> Result<Self, NoMemory>
        ensures { IfOk result (λ lines. lines ≡ record { buffered = []; text = [] }) }
    {
        Ok(Lines {
            bytes: vec![in alloc; 0; ROOM]?,
            start: 0,
            end: 0,
            text_start: 0,
            text_end: 0,
        })
    }

    /// The last line, without its line feed and one carriage return at its end.
    pub fn text(&self) -> &[u8]
        ensures { result.now ≡ self.now.text }
    {
        &self.bytes[self.text_start..self.text_end]
    }

    /// Whether the next line's line feed is buffered, so that `next` reads nothing for it.
    pub fn has_line(&self) -> bool
        ensures { result ≡ list_any (λ b. b == 10) self.now.buffered }
    {
        has_feed(&self.bytes[self.start..self.end])
    }

    // Cuts the first line off what is buffered, if it is whole.
    fn cut(&mut self, max: usize) -> First
        ensures { Cuts max self.old self.new result }
    {
        let first = first_in(&self.bytes[self.start..self.end], max);
        if let First::Line { len, size } = first {
            self.text_start = self.start;
            self.text_end = self.start + len;
            self.start += size;
        }
        first
    }

    // Reads bytes after those that are buffered, which are moved to the start.
    fn fill<S: Source>(&mut self, source: &mut S) -> ReadEnd
        requires { length self.old.buffered < 20480 }
        ensures bytes { Fills (S.left source.old) (S.left source.new) self.old.buffered
            self.new.buffered result }
        ensures cause { result ≡ read_end.Failed
            → Rises (S.faults source.old) (S.faults source.new) }
        ensures still { ReadKeepsCount result (S.faults source.old) (S.faults source.new) }
        ensures later { S.faults source.old ≤ S.faults source.new }
    {
        let (start, buffered) = (self.start, self.end - self.start);
        self.start = 0;
        self.end = buffered;
        self.text_start = 0;
        self.text_end = 0;
        move_to_front(&mut self.bytes, start, buffered);
        let end = read_behind(source, &mut self.bytes, buffered);
        if let ReadEnd::Got(count) = end {
            self.end += count;
        }
        end
    }

    // Gives what is buffered as the last line, if there is one.
    fn empty(&mut self) -> Next
        ensures { EmptiedAs self.old.buffered self.new result }
    {
        if self.start == self.end {
            return Next::End;
        }
        self.text_start = self.start;
        self.text_end = self.start + text_length(&self.bytes[self.start..self.end]);
        self.start = self.end;
        Next::Last
    }

    /// Reads up to the end of the next line, of at most `max` bytes, which `text` then gives. What was read and is not given
    /// yet is buffered for the next call, so that nothing is lost where a read fails. The count of faults changes exactly then.
    pub fn next<S: Source>(&mut self, source: &mut S, max: usize) -> Next
        requires { max ≤ 16384 }
        ensures gives { GivesNext max (S.left source.old) (S.left source.new) self.old
            self.new result }
        ensures cause { result ≡ next.Failed → Rises (S.faults source.old) (S.faults source.new) }
        ensures still { (result ≡ next.Failed → ⊥) → S.faults source.new ≡ S.faults source.old }
        ensures later { S.faults source.old ≤ S.faults source.new }
    {
        loop {
            match self.cut(max) {
                First::Line { .. } => return Next::Line,
                First::Long => return Next::Long,
                First::Open => {}
            }
            match self.fill(source) {
                ReadEnd::Failed => return Next::Failed,
                ReadEnd::Got(0) => return self.empty(),
                ReadEnd::Got(_) => {}
            }
        }
    }
}
