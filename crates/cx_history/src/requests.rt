//! What tells whether a request may not be made any more.

ghost use Rattle.std.specs.Prelude.{◌≡◌, ◌<◌, ◌==◌, ◌||◌, ◌++◌, ◌∷◌, [], not, ℕ, List, Some, None, IfOk, OnOk, OnErr, if◌then◌else◌};
ghost use Rattle.std.specs.Str.{bytes_eq};
ghost use Rattle.indexmap.specs.IndexMap.{spare};
ghost use Rattle.cx_field.specs.declared.parts.Token.{Token as Named};
ghost use Rattle.cx_model.specs.Request.{floor_in, same_read, token_of};
ghost use Rattle.cx_history.specs.Held.{ArePlaces, IsPiecePlace, NotesRequest, asked_with, asks_other, floor_told, is_stale_by, token_number, max_floor};
ghost use Rattle.cx_history.specs.Requests.{asked, sent_token};

use crate::scratch::Scratch;
use cx_base::{Event, Happened, NoMemory, Why};
use cx_field::Token;
use cx_pieces::Pieces;
use indexmap::IndexMap;
use std::alloc::Global;
use std::marker::Model;

// A client's number, under which the map finds what was asked with it.
#[derive(Clone, Copy, PartialEq, Eq, Hash)]
struct Number {
    client: u16,
    seq: u64,
}

// What was asked with a number.
#[derive(Clone, Copy, Drop)]
enum Asked {
    // What the piece of this number says, each time.
    One(u32),
    // Not the same each time, which no run has.
    Several,
}

/// The requests that were sent: what was asked with each client's number, and the greatest floor that each client told. A repeat
/// takes no room.
#[derive(Drop)]
pub struct Requests {
    asked: IndexMap<Number, Asked>,
    // What was asked, as bytes.
    pieces: Pieces,
    floors: IndexMap<u16, u64>,
}

impl Model for Requests {
    ghost use Rattle.cx_history.specs.Held.{RequestsState};

    ghost Value = { RequestsState };

    ghost view = { λ r.
        record { asked = r.asked.entries; pieces = r.pieces; floors = r.floors.entries } };
}

fn token_number(token: Token) -> Number
    ensures { result ≡ token_number token }
{
    Number {
        client: token.client,
        seq: token.seq,
    }
}

// The client and the number of a request, of another event none.
fn token_of(event: &Event) -> Option<Token>
    ensures { result ≡ token_of event.now }
{
    match event {
        Event::Write { command, .. } => Some(Token {
            client: command.client,
            seq: command.seq,
        }),
        Event::Read { client, seq, .. } => Some(Token {
            client: *client,
            seq: *seq,
        }),
        Event::Session { client, seq, .. } => Some(Token {
            client: *client,
            seq: *seq,
        }),
        _ => None,
    }
}

// The client and the number of a request that was sent, of another event none.
fn sent_token(happened: &Happened) -> Option<Token>
    ensures { result ≡ sent_token happened.now }
{
    if !matches!(happened.why, Why::Sent) {
        return None;
    }
    token_of(&happened.event)
}

// The floor that a request tells, 0 of another event.
fn floor_in(event: &Event) -> u64
    ensures { result ≡ floor_in event.now }
{
    match event {
        Event::Write { command, .. } => command.floor,
        Event::Read { floor, .. } => *floor,
        Event::Session { floor, .. } => *floor,
        _ => 0,
    }
}

// What was asked with a client's number.
fn asked_with(asked: &IndexMap<Number, Asked>, token: Token) -> Option<Asked>
    ensures { result ≡ asked_with token asked.now.entries }
{
    asked.get(&token_number(token)).copied()
}

// The greatest floor that a client told.
fn floor_told(floors: &IndexMap<u16, u64>, client: u16) -> Option<u64>
    ensures { result ≡ floor_told client floors.now.entries }
{
    floors.get(&client).copied()
}

// Whether something else was asked than this.
fn asks_other(pieces: &Pieces, asked: Asked, asks: &[u8]) -> bool
    ensures { result ≡ asks_other pieces.now (Some asked) asks.now }
{
    match asked {
        Asked::One(piece) => match pieces.get(piece as usize) {
            Some(others) => asks != others,
            None => true,
        },
        Asked::Several => true,
    }
}

// A number that four bytes hold; none is greater among pieces that memory holds.
fn small(number: usize) -> Result<u32, NoMemory>
    ensures { IfOk result (λ n. n ≡ number) }
{
    u32::try_from(number).map_err(|_| NoMemory)
}

// What was asked with a number, once this is asked with it too.
fn ask(pieces: &mut Pieces, earlier: Option<Asked>, asks: &[u8]) -> Result<Asked, NoMemory>
    requires { IsPiecePlace pieces.old earlier }
    ensures grows { OnOk result ((more : List (List ℕ)) × (pieces.new ≡ pieces.old ++ more)) }
    ensures place { IfOk result (λ asked. IsPiecePlace pieces.new (Some asked)) }
    ensures others { IfOk result (λ asked. (other : List ℕ)
        → asks_other pieces.new (Some asked) other
        ≡ (asks_other pieces.old earlier other || not (bytes_eq other asks.now))) }
    ensures err { OnErr result (pieces.new ≡ pieces.old) }
{
    match earlier {
        None => {
            let piece = small(pieces.len())?;
            pieces.push(asks)?;
            Ok(Asked::One(piece))
        }
        Some(asked) => {
            if asks_other(pieces, asked, asks) {
                return Ok(Asked::Several);
            }
            Ok(asked)
        }
    }
}

// Notes what is asked with a number. Room was taken beforehand.
fn put_asked(map: &mut IndexMap<Number, Asked>, token: Token, asked: Asked)
    requires { 0 < spare map.old }
    ensures { (t : Named) → asked_with t map.new.entries
        ≡ (if same_read token t then Some asked else asked_with t map.old.entries) }
{
    match map.insert(token_number(token), asked) {
        Ok(_) => {}
        // There is room.
        Err(_) => unreachable!(),
    }
}

// Notes a floor that a client tells. Room was taken beforehand.
fn raise(floors: &mut IndexMap<u16, u64>, client: u16, floor: u64)
    requires { 0 < spare floors.old }
    ensures { (c : ℕ) → floor_told c floors.new.entries
        ≡ (if client == c then Some (max_floor (floor_told client floors.old.entries) floor)
        else floor_told c floors.old.entries) }
{
    let greatest = match floor_told(floors, client) {
        Some(told) => told.max(floor),
        None => floor,
    };
    match floors.insert(client, greatest) {
        Ok(_) => {}
        // There is room.
        Err(_) => unreachable!(),
    }
}

impl Requests {
    /// Nothing was sent. It takes no memory.
    pub fn new(alloc: Global) -> Self
        ensures { result ≡ record { asked = []; pieces = []; floors = [] } }
    {
        Requests {
            asked: IndexMap::new(alloc),
            pieces: Pieces::new(alloc),
            floors: IndexMap::new(alloc),
        }
    }

    // Notes a request that was sent.
    fn note(&mut self, token: Token, event: &Event) -> Result<(), NoMemory>
        requires { ArePlaces self.old.pieces self.old.asked }
        ensures ok { OnOk result (NotesRequest (Some token) event.now self.old self.new) }
        ensures err { OnErr result (self.new ≡ self.old) }
    {
        self.asked.reserve(1)?;
        self.floors.reserve(1)?;
        let asks = Scratch::of(event);
        let earlier = asked_with(&self.asked, token);
        let asked = ask(&mut self.pieces, earlier, asks.as_bytes())?;
        put_asked(&mut self.asked, token, asked);
        raise(&mut self.floors, token.client, floor_in(event));
        Ok(())
    }

    /// Notes an event where it is a request that was sent. Out of memory, it changes nothing; more than 4,294,967,295 requests are
    /// answered as out of memory too.
    pub fn push(&mut self, happened: &Happened) -> Result<(), NoMemory>
        requires { ArePlaces self.old.pieces self.old.asked }
        ensures ok { OnOk result
            (NotesRequest (sent_token happened.now) happened.now.event self.old self.new) }
        ensures err { OnErr result (self.new ≡ self.old) }
    {
        match sent_token(happened) {
            Some(token) => self.note(token, &happened.event),
            None => Ok(()),
        }
    }

    /// Whether a request may not be made any more: something else was asked with its number; or nothing was, and its client told a
    /// floor that the number isn't above.
    pub fn is_stale(&self, token: Token, event: &Event) -> bool
        ensures { result ≡ is_stale_by token (asked event.now) self.now }
    {
        match asked_with(&self.asked, token) {
            Some(asked) => asks_other(&self.pieces, asked, Scratch::of(event).as_bytes()),
            None => match floor_told(&self.floors, token.client) {
                Some(floor) => token.seq <= floor,
                None => false,
            },
        }
    }
}
