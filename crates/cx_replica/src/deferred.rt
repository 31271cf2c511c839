//! The reads that a replica defers, by their clients and numbers.

ghost use Rattle.std.specs.Prelude.{◌≡◌, ◌++◌, ◌∷◌, ◌<◌, [], Some, false, length, nat_lt, slice_get, OnErr, OnOk};
ghost use Rattle.std.specs.List.{list_any};
ghost use Rattle.cx_model.specs.declared.states.Deferred.{Deferred as DeferredOf};
ghost use Rattle.cx_model.specs.Replica.{still_deferred};
ghost use Rattle.cx_model.specs.Request.{same_read};
ghost use Rattle.cx_replica.specs.Waiting.{deferred_by, deferred_in, deferred_number, deferred_question};

use cx_base::{Key, NoMemory};
use cx_field::Token;
use cx_model::Deferred;
use indexmap::IndexMap;
use std::alloc::Global;
use std::marker::Model;

// A read's client and number, under which the map finds it.
#[derive(Clone, Copy, PartialEq, Eq, Hash)]
struct Number {
    client: u16,
    seq: u64,
}

// How many slots a read waits for, and whose text it asks for.
#[derive(Clone, Copy, Drop)]
struct Question {
    mark: u64,
    key: Key,
}

/// The reads that wait, in the order in which they came. No two have one client and number.
#[derive(Drop)]
pub struct DeferredReads {
    map: IndexMap<Number, Question>,
}

impl Model for DeferredReads {
    ghost use Rattle.std.specs.Prelude.{List};
    ghost use Rattle.cx_model.specs.declared.states.Deferred.{Deferred as DeferredOf};
    ghost use Rattle.cx_replica.specs.Waiting.{deferred_in};

    ghost Value = { List DeferredOf };

    ghost view = { λ r. deferred_in r.map.entries };
}

fn deferred_number(token: Token) -> Number
    ensures { result ≡ deferred_number token }
{
    Number {
        client: token.client,
        seq: token.seq,
    }
}

fn deferred_question(one: &Deferred) -> Question
    ensures { result ≡ deferred_question one.now }
{
    Question {
        mark: one.mark,
        key: one.key,
    }
}

fn deferred_by(number: &Number, question: &Question) -> Deferred
    ensures { result ≡ deferred_by (number.now, question.now) }
{
    Deferred {
        token: Token {
            client: number.client,
            seq: number.seq,
        },
        mark: question.mark,
        key: question.key,
    }
}

// Drops those that waited for no more slots than are held.
fn drop_answered(map: &mut IndexMap<Number, Question>, held: u64)
    ensures { deferred_in map.new.entries ≡ still_deferred held (deferred_in map.old.entries) }
{
    map.retain(
        |_number: &Number, question: &mut Question| -> bool
            ensures { (result ≡ nat_lt held question.old.mark) × (question.new ≡ question.old) }
        { held < question.mark },
    );
}

impl DeferredReads {
    /// None. It takes no memory.
    pub fn new(alloc: Global) -> Self
        ensures { result ≡ [] }
    {
        DeferredReads {
            map: IndexMap::new(alloc),
        }
    }

    pub fn len(&self) -> usize
        ensures { result ≡ length self.now }
    {
        self.map.len()
    }

    /// Whether one has this client and number.
    pub fn has(&self, token: Token) -> bool
        ensures { result ≡ list_any (λ (other : DeferredOf). same_read token other.token) self.now }
    {
        self.map.contains_key(&deferred_number(token))
    }

    /// One of them, by its place.
    pub fn at(&self, place: usize) -> Deferred
        requires { place < length self.now }
        ensures { slice_get self.now place ≡ Some result }
    {
        match self.map.get_index(place) {
            Some((number, question)) => deferred_by(number, question),
            None => unreachable!(),
        }
    }

    /// One more, behind all others. Out of memory, all stay as they are.
    pub fn push(&mut self, one: Deferred) -> Result<(), NoMemory>
        requires { list_any (λ (other : DeferredOf). same_read one.token other.token) self.old
            ≡ false }
        ensures ok { OnOk result (self.new ≡ self.old ++ one ∷ []) }
        ensures err { OnErr result (self.new ≡ self.old) }
    {
        self.map
            .insert(deferred_number(one.token), deferred_question(&one))?;
        Ok(())
    }

    /// Drops those that waited for no more slots than are held. It takes no memory.
    pub fn drop_answered(&mut self, held: u64)
        ensures { self.new ≡ still_deferred held self.old }
    {
        drop_answered(&mut self.map, held);
    }

    /// Drops all. It takes no memory.
    pub fn clear(&mut self)
        ensures { self.new ≡ [] }
    {
        self.map.clear();
    }
}
