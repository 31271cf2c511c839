//! The outside: any reader is a source, and any writer a sink.

ghost use Rattle.std.specs.Prelude.{◌≡◌};

use crate::{ReadEnd, Remark, Sink, Source, WriteEnd};
use cx_base::Faults;
use std::io::{Read, Write};
use std::marker::Model;

/// A source over a reader, whose errors it counts.
#[derive(Drop)]
pub struct ReaderSource<R> {
    reader: R,
    faults: Faults,
}

impl<R> Model for ReaderSource<R> {
    ghost use Rattle.cx_edge.specs.Outside.{CountedAdapter};

    ghost Value = { CountedAdapter R };

    ghost view = { λ s. record { inner = s.reader; faults = s.faults } };
}

impl<R> ReaderSource<R> {
    /// The source over this reader, with no fault counted yet.
    pub fn new(reader: R) -> Self
        ensures { result ≡ record { inner = reader; faults = 0 } }
    {
        ReaderSource {
            reader,
            faults: Faults::none(),
        }
    }
}

impl<R: Read> Source for ReaderSource<R> {
    ghost left = { λ s. R.remaining s.inner };

    ghost faults = { λ s. s.faults };

    fn read(&mut self, buffer: &mut [u8]) -> ReadEnd {
        match self.reader.read(buffer) {
            Ok(count) => ReadEnd::Got(count),
            Err(_) => {
                self.faults.add();
                ReadEnd::Failed
            }
        }
    }
}

/// A sink over a writer, whose errors it counts; a write that takes nothing of a piece that isn't empty is one.
#[derive(Drop)]
pub struct WriterSink<W> {
    writer: W,
    faults: Faults,
}

impl<W> Model for WriterSink<W> {
    ghost use Rattle.cx_edge.specs.Outside.{CountedAdapter};

    ghost Value = { CountedAdapter W };

    ghost view = { λ s. record { inner = s.writer; faults = s.faults } };
}

impl<W> WriterSink<W> {
    /// The sink over this writer, with no fault counted yet.
    pub fn new(writer: W) -> Self
        ensures { result ≡ record { inner = writer; faults = 0 } }
    {
        WriterSink {
            writer,
            faults: Faults::none(),
        }
    }
}

impl<W: Write> Sink for WriterSink<W> {
    ghost taken = { λ s. W.contents s.inner };

    ghost faults = { λ s. s.faults };

    fn write(&mut self, piece: &[u8]) -> WriteEnd {
        match self.writer.write(piece) {
            Ok(count) if count > 0 || piece.is_empty() => WriteEnd::Took(count),
            _ => {
                self.faults.add();
                WriteEnd::Failed
            }
        }
    }
}

/// A sink with a writer beside it, which gets each remark as a line. Errors of that writer are passed over.
#[derive(Drop)]
pub struct RemarkingSink<S, E> {
    sink: S,
    remarks: E,
}

impl<S, E> Model for RemarkingSink<S, E> {
    ghost Value = { S };

    ghost view = { λ s. s.sink };
}

impl<S, E> RemarkingSink<S, E> {
    /// The sink, with this writer for remarks.
    pub fn new(sink: S, remarks: E) -> Self
        ensures { result ≡ sink }
    {
        RemarkingSink { sink, remarks }
    }

    /// What the remarks were written to.
    pub fn remarks(&self) -> &E {
        &self.remarks
    }
}

impl<S: Sink, E: Write> Sink for RemarkingSink<S, E> {
    ghost taken = { S.taken };

    ghost faults = { S.faults };

    fn write(&mut self, piece: &[u8]) -> WriteEnd {
        self.sink.write(piece)
    }

    fn remark(&mut self, remark: Remark) {
        let _ = writeln!(self.remarks, "{remark}");
    }
}
