//! The events that happened, and whether a request may still be made.

ghost use Rattle.std.specs.Prelude.{◌≡◌, ◌+◌, ◌++◌, ◌∷◌, [], IfOk, OnErr, OnOk, length};
ghost use Rattle.cx_model.specs.Request.{is_stale};

use crate::requests::Requests;
use cx_base::{Event, Happened, NoMemory};
use cx_field::Token;
use cx_ring::{GhostList, GhostListOf};
use std::alloc::Global;
use std::marker::Model;

/// What happened, event by event. The list of all events is in proofs alone; what is held is how many they are, and of the requests
/// that were sent what tells whether another is stale.
#[derive(Drop)]
pub struct Events {
    events: GhostList<Happened>,
    count: u64,
    requests: Requests,
}

impl Model for Events {
    ghost use Rattle.std.specs.Prelude.{List};
    ghost use Rattle.cx_base.specs.declared.event.Happened.{Happened};
    ghost use Rattle.cx_history.specs.Held.{IsEventsSummary};

    ghost Value = { List Happened };

    ghost view = { λ h. h.events.items };

    ghost invariant = { λ h. IsEventsSummary h.events.items h.count h.requests };
}

struct Nothing;

impl GhostListOf<(), Happened> for Nothing {
    ghost list_shown = { λ _. [] };
}

struct OneMore;

impl<'a> GhostListOf<(&'a GhostList<Happened>, &'a Happened), Happened> for OneMore {
    ghost list_shown = { λ x. x.0.now.items ++ x.1.now ∷ [] };
}

// One more. More than a count can tell are answered as out of memory.
fn next(count: u64) -> Result<u64, NoMemory>
    ensures { IfOk result (λ n. n ≡ count + 1) }
{
    count.checked_add(1).ok_or(NoMemory)
}

impl Events {
    /// Nothing has happened. It takes no memory.
    pub fn new(alloc: Global) -> Self
        ensures { result ≡ [] }
    {
        Events {
            events: GhostList::of::<(), Nothing>(&()),
            count: 0,
            requests: Requests::new(alloc),
        }
    }

    /// How many events happened.
    pub fn len(&self) -> u64
        ensures { result ≡ length self.now }
    {
        self.count
    }

    /// Notes what happened last. Only a request that was sent takes memory. Out of memory, it changes nothing; more than
    /// 18,446,744,073,709,551,615 events, or 4,294,967,295 requests, are answered as out of memory too.
    pub fn push(&mut self, happened: &Happened) -> Result<(), NoMemory>
        ensures ok { OnOk result (self.new ≡ self.old ++ happened.now ∷ []) }
        ensures err { OnErr result (self.new ≡ self.old) }
    {
        let count = next(self.count)?;
        self.requests.push(happened)?;
        self.events = GhostList::of::<(&GhostList<Happened>, &Happened), OneMore>(&(
            &self.events,
            happened,
        ));
        self.count = count;
        Ok(())
    }

    /// Whether a request may not be made any more: with its number something else was asked; or nothing was, and its client told a
    /// floor that the number isn't above.
    pub fn is_stale(&self, token: Token, event: &Event) -> bool
        ensures { result ≡ is_stale token event.now self.now }
    {
        self.requests.is_stale(token, event)
    }
}
