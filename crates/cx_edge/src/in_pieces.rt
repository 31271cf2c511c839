//! A source or a sink of which a call reads or writes few bytes.

ghost use Rattle.std.specs.Prelude.{◌≡◌, ◌<◌};

use crate::{ReadEnd, Sink, Source, WriteEnd};
use std::marker::Model;

/// A source or a sink, of which each call reads or writes a limited number of bytes.
#[derive(Drop)]
pub struct InPieces<T> {
    inner: T,
    most: usize,
}

impl<T> Model for InPieces<T> {
    ghost use Rattle.std.specs.Prelude.{◌<◌};

    ghost Value = { T };

    ghost view = { λ s. s.inner };

    ghost invariant = { λ s. 0 < s.most };
}

impl<T> InPieces<T> {
    /// The same, with at most this many bytes a call, and at least one.
    pub fn new(inner: T, most: usize) -> Self
        requires { 0 < most }
        ensures { result ≡ inner }
    {
        InPieces { inner, most }
    }

    /// What is read or written.
    pub fn inner(&self) -> &T
        ensures { result.now ≡ self.now }
    {
        &self.inner
    }
}

impl<S: Source> Source for InPieces<S> {
    ghost left = { S.left };

    ghost faults = { S.faults };

    fn read(&mut self, buffer: &mut [u8]) -> ReadEnd {
        let count = buffer.len().min(self.most);
        self.inner.read(&mut buffer[..count])
    }
}

impl<W: Sink> Sink for InPieces<W> {
    ghost taken = { W.taken };

    ghost faults = { W.faults };

    fn write(&mut self, piece: &[u8]) -> WriteEnd {
        let count = piece.len().min(self.most);
        self.inner.write(&piece[..count])
    }
}
