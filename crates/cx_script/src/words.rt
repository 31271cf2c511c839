//! The words of a line, read from left to right.

ghost use Rattle.std.specs.Prelude.{◌≡◌, ◌∷◌, [], MatchResult};
ghost use Rattle.cx_script.specs.declared.fault.LineFault.TheVariants.{Word};
ghost use Rattle.cx_script.specs.Grammar.{next_word, grid_at, op_at, ended, cut_at};
ghost use Rattle.cx_script.specs.Places.{seq_word, number_word, key_word, text_word, index_word, other_word, slot_word, server_word, renewing_word, set_word};
ghost use Rattle.cx_script.specs.Reading.{ReadsWords};

use crate::fault::LineFault;
use crate::grid::{members_word, sides_word};
use crate::place::{
    index_word, is, key_word, number_word, other_word, renewing_word, seq_word, server_word,
    slot_word, text_word,
};
use crate::set::set_word;
use crate::split::first_word;
use cx_base::{Cluster, Cut, Grid, Key, Kind, Op, RoleId, Set, Text};
use std::marker::Model;

/// The words of a line that are not read yet.
#[derive(Drop)]
pub struct Words<'a> {
    line: &'a [u8],
}

impl<'a> Model for Words<'a> {
    ghost use Rattle.std.specs.Prelude.{ℕ, List};
    ghost use Rattle.cx_script.specs.Words.{words_of};

    ghost Value = { List (List ℕ) };

    ghost view = { λ words. words_of words.line.now };
}

impl<'a> Words<'a> {
    ghost use Rattle.cx_script.specs.Words.{words_of};

    /// The words of a line.
    pub fn new(line: &'a [u8]) -> Self
        ensures { result ≡ words_of line.now }
    {
        Words { line }
    }

    /// The next word.
    pub fn next(&mut self) -> Result<&'a [u8], LineFault>
        ensures { MatchResult result (λ word. self.old ≡ word.now ∷ self.new)
            (λ fault. (self.old ≡ []) × (fault ≡ Word)) }
    {
        let (word, rest) = first_word(self.line).ok_or(LineFault::Word)?;
        self.line = rest;
        Ok(word)
    }

    /// A request's number, and the floor that it tells.
    pub fn seq(&mut self) -> Result<(u64, u64), LineFault>
        ensures { ReadsWords result self.new (next_word seq_word self.old) }
    {
        seq_word(self.next()?)
    }

    /// Any number.
    pub fn number(&mut self) -> Result<u64, LineFault>
        ensures { ReadsWords result self.new (next_word number_word self.old) }
    {
        number_word(self.next()?)
    }

    /// A slot.
    pub fn slot(&mut self) -> Result<u64, LineFault>
        ensures { ReadsWords result self.new (next_word slot_word self.old) }
    {
        slot_word(self.next()?)
    }

    /// A key.
    pub fn key(&mut self) -> Result<Key, LineFault>
        ensures { ReadsWords result self.new (next_word key_word self.old) }
    {
        key_word(self.next()?)
    }

    /// A text.
    pub fn text(&mut self) -> Result<Text, LineFault>
        ensures { ReadsWords result self.new (next_word text_word self.old) }
    {
        text_word(self.next()?)
    }

    /// The index of a role of this kind.
    pub fn index(&mut self, cluster: &Cluster, kind: Kind) -> Result<u16, LineFault>
        ensures { ReadsWords result self.new (next_word (index_word cluster.now kind) self.old) }
    {
        index_word(cluster, kind, self.next()?)
    }

    /// The index of another role of this kind than the one of this index.
    pub fn other(&mut self, cluster: &Cluster, kind: Kind, first: u16) -> Result<u16, LineFault>
        ensures { ReadsWords result self.new
            (next_word (other_word cluster.now kind first) self.old) }
    {
        other_word(cluster, kind, first, self.next()?)
    }

    /// Any role but a client.
    pub fn server(&mut self, cluster: &Cluster) -> Result<RoleId, LineFault>
        ensures { ReadsWords result self.new (next_word (server_word cluster.now) self.old) }
    {
        server_word(cluster, self.next()?)
    }

    /// A role that puts its list anew.
    pub fn snap(&mut self, cluster: &Cluster) -> Result<RoleId, LineFault>
        ensures { ReadsWords result self.new (next_word (renewing_word cluster.now) self.old) }
    {
        renewing_word(cluster, self.next()?)
    }

    /// A grid of acceptors.
    pub fn grid(&mut self, cluster: &Cluster) -> Result<Grid, LineFault>
        ensures { ReadsWords result self.new (grid_at cluster.now self.old) }
    {
        let (rows, cols) = sides_word(self.next()?)?;
        members_word(cluster, rows, cols, self.next()?)
    }

    /// A set of matchmakers.
    pub fn set(&mut self, cluster: &Cluster) -> Result<Set, LineFault>
        ensures { ReadsWords result self.new (next_word (set_word cluster.now) self.old) }
    {
        set_word(cluster, self.next()?)
    }

    /// What to do: `put K T`, `del K` or `app K T`.
    pub fn op(&mut self) -> Result<Op, LineFault>
        ensures { ReadsWords result self.new (op_at self.old) }
    {
        let verb = self.next()?;
        if is(verb, "put") {
            Ok(Op::Put(self.key()?, self.text()?))
        } else if is(verb, "del") {
            Ok(Op::Del(self.key()?))
        } else if is(verb, "app") {
            Ok(Op::App(self.key()?, self.text()?))
        } else {
            Err(LineFault::Word)
        }
    }

    /// The end of the line.
    pub fn end(self) -> Result<(), LineFault>
        ensures { result ≡ ended tt self.entry }
    {
        match first_word(self.line) {
            Some(_) => Err(LineFault::Word),
            None => Ok(()),
        }
    }

    /// The end of the line, before which a word may be: `torn` or `kept`.
    pub fn cut(self) -> Result<Cut, LineFault>
        ensures { result ≡ cut_at self.entry }
    {
        let Some((word, rest)) = first_word(self.line) else {
            return Ok(Cut::Whole);
        };
        let cut = if is(word, "torn") {
            Cut::Torn
        } else if is(word, "kept") {
            Cut::Kept
        } else {
            return Err(LineFault::Word);
        };
        Words::new(rest).end()?;
        Ok(cut)
    }
}
