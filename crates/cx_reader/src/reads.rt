//! Reads that were asked for, by their clients and numbers.

ghost use Rattle.std.specs.Prelude.{◌≡◌, ◌≤◌, ◌<◌, ◌+◌, ◌++◌, ◌∷◌, Some, false, slice_get};
ghost use Rattle.cx_role.specs.Prelude.{[], length, map, true, IsTrue, OnErr, OnOk, role};
ghost use Rattle.cx_role.specs.Prelude.kind;
ghost use Rattle.cx_field.specs.Fields as field;
ghost use Rattle.cx_model.specs.Reader.{is_among, is_first, read_to, with_asked};
ghost use Rattle.cx_model.specs.Request.{same_read};
ghost use Rattle.cx_reader.specs.Reads.{entry_read, read_number, read_question, token_by};
ghost use Rattle.cx_reader.specs.Running.{are_apart, are_once};

use crate::asked::Asked;
use cx_base::{Duplicate, Key, NoMemory};
use cx_field::Token;
use cx_role::Outbox;
use indexmap::IndexMap;
use std::alloc::Global;
use std::marker::Model;

// A read's client and number, under which the map finds it.
#[derive(Clone, Copy, PartialEq, Eq, Hash)]
struct Number {
    client: u16,
    seq: u64,
}

// The replica that is to answer a read, and whose text it asks for.
#[derive(Clone, Copy, Drop)]
struct Question {
    replica: u16,
    key: Key,
}

/// Reads in the order in which they came. No two have one client and number.
#[derive(Drop)]
pub struct AskedReads {
    map: IndexMap<Number, Question>,
}

impl Model for AskedReads {
    ghost use Rattle.cx_role.specs.Prelude.{IsTrue, List};
    ghost use Rattle.cx_model.specs.Reader.{Asked as AskedFor};
    ghost use Rattle.cx_reader.specs.Reads.{are_in_range, entry_reads};

    ghost Value = { List AskedFor };

    ghost view = { λ r. entry_reads r.map.entries };

    ghost invariant = { λ r. IsTrue (are_in_range (entry_reads r.map.entries)) };
}

fn read_number(token: Token) -> Number
    ensures { result ≡ read_number token }
{
    Number {
        client: token.client,
        seq: token.seq,
    }
}

fn read_question(one: &Asked) -> Question
    ensures { result ≡ read_question one.now }
{
    Question {
        replica: one.replica(),
        key: one.key(),
    }
}

fn entry_read(number: &Number, question: &Question) -> Asked
    requires { IsTrue (field.token.fits (token_by number.now)) }
    ensures { result ≡ entry_read (number.now, question.now) }
{
    let token = Token {
        client: number.client,
        seq: number.seq,
    };
    Asked::new(token, question.replica, question.key)
}

fn is_of(number: &Number, token: Token) -> bool
    ensures { result ≡ same_read token (token_by number.now) }
{
    token.client == number.client && token.seq == number.seq
}

impl AskedReads {
    /// None. It takes no memory.
    pub fn new(alloc: Global) -> Self
        ensures { result ≡ [] }
    {
        AskedReads {
            map: IndexMap::new(alloc),
        }
    }

    pub fn len(&self) -> usize
        ensures count { result ≡ length self.now }
        ensures once { are_once self.now ≡ true }
    {
        self.map.len()
    }

    /// Whether one has this client and number.
    pub fn has(&self, token: Token) -> bool
        ensures { result ≡ is_among token self.now }
    {
        self.map.contains_key(&read_number(token))
    }

    /// Whether the first has.
    pub fn is_first(&self, token: Token) -> bool
        ensures { result ≡ is_first token self.now }
    {
        match self.map.get_index(0) {
            Some((number, _)) => is_of(number, token),
            None => false,
        }
    }

    // One of them, by its place.
    fn at(&self, place: usize) -> Asked
        requires { place < length self.now }
        ensures { slice_get self.now place ≡ Some result }
    {
        match self.map.get_index(place) {
            Some((number, question)) => entry_read(number, question),
            None => unreachable!(),
        }
    }

    /// One more, behind all others. Out of memory, all stay as they are.
    pub fn push(&mut self, one: Asked) -> Result<(), NoMemory>
        requires { is_among one.read self.old ≡ false }
        ensures ok { OnOk result (self.new ≡ self.old ++ one ∷ []) }
        ensures err { OnErr result (self.new ≡ self.old) }
    {
        self.map
            .insert(read_number(one.token()), read_question(&one))?;
        Ok(())
    }

    /// Puts a read into the place of the earlier one of its client and number. It takes no memory.
    pub fn put_again(&mut self, one: Asked)
        requires { is_among one.read self.old ≡ true }
        ensures { self.new ≡ with_asked one self.old }
    {
        match self
            .map
            .insert(read_number(one.token()), read_question(&one))
        {
            Ok(_) => (),
            // An earlier one is there, whose room it takes.
            Err(_) => unreachable!(),
        }
    }

    /// Adds reads, which have other clients and numbers, at the end.
    pub fn add_all(&mut self, more: &AskedReads) -> Result<(), NoMemory>
        requires { are_apart self.old more.now ≡ true }
        ensures { OnOk result (self.new ≡ self.old ++ more.now) }
    {
        self.map.reserve(more.len())?;
        for place in 0..more.len() {
            self.push(more.at(place))?;
        }
        Ok(())
    }

    /// Asks a replica for each, in their order. Room was taken beforehand.
    pub fn ask_all(&self, reader: u16, mark: u64, out: &mut Outbox)
        requires spare { length self.now ≤ out.old.spare }
        requires mark { IsTrue (field.mark.fits mark) }
        ensures list { out.new.list
            ≡ out.old.list ++ map (read_to (role kind.Reader reader) mark) self.now }
        ensures spare { out.old.spare ≤ out.new.spare + length self.now }
    {
        for place in 0..self.len() {
            out.push(self.at(place).question(reader, mark));
        }
    }

    /// Drops all. It takes no memory.
    pub fn clear(&mut self)
        ensures { self.new ≡ [] }
    {
        self.map.clear();
    }
}

impl Duplicate for AskedReads {
    fn copy(&self, alloc: Global) -> Result<Self, NoMemory> {
        let mut copied = AskedReads::new(alloc);
        copied.add_all(self)?;
        Ok(copied)
    }
}
