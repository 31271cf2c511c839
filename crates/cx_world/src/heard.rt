//! What each client has heard.

ghost use Rattle.std.specs.Prelude.{◌≡◌, ◌==◌, ℕ, OnOk, IsTrue, Some, get_or, if◌then◌else◌};
ghost use Rattle.cx_field.specs.Fields.{mark};
ghost use Rattle.cx_model.specs.Heard.{heard_at, is_heard, mark_told, told_to};
ghost use Rattle.cx_world.specs.Heard.{Raised, delivered, is_client};

use cx_base::{CLIENTS, Event, Kind, NoMemory, RoleId, Why};
use cx_history::Sent;
use cx_letter::{Datagram, Msg};
use std::marker::Model;

/// The greatest number that each client of a cluster was told in an answer, 0 where it was told none.
#[derive(Drop)]
pub struct Heard {
    numbers: [u64; CLIENTS],
}

impl Model for Heard {
    ghost use Rattle.std.specs.Prelude.{ℕ, List};
    ghost use Rattle.cx_world.specs.Heard.{AreMarks};

    ghost Value = { List ℕ };

    ghost view = { λ h. h.numbers };

    ghost invariant = { λ h. AreMarks h.numbers };
}

fn is_heard(why: Why) -> bool
    ensures { result ≡ is_heard why }
{
    matches!(why, Why::Heard)
}

fn is_client(who: RoleId) -> bool
    ensures { result ≡ is_client who.kind }
{
    matches!(who.kind, Kind::Client)
}

// The number of the datagram that an event delivers.
fn delivered(event: &Event) -> Option<u64>
    ensures { result ≡ delivered event.now }
{
    match event {
        Event::Deliver { number, .. } => Some(*number),
        _ => None,
    }
}

// The number that an answer tells a client, 0 of another datagram.
#[tactic(auto, unfolding(cx_field::specs::Fields::at, cx_field::specs::Fields::mark, cx_wire::specs::Format::u64))]
fn mark_told(datagram: &Datagram) -> u64
    ensures is { result ≡ mark_told datagram.now.msg }
    ensures fits { IsTrue (mark.fits result) }
{
    match datagram.msg() {
        Msg::Answer { at, .. } => *at,
        Msg::ReadAnswer { mark, .. } => *mark,
        _ => 0,
    }
}

impl Heard {
    /// No client has heard of anything.
    pub fn new() -> Self
        ensures { (client : ℕ) → get_or result client 0 ≡ 0 }
    {
        Heard {
            numbers: [0; CLIENTS],
        }
    }

    /// The greatest number that a client was told.
    #[tactic(auto, using(crate::proofs::Hearing::zero_fits))]
    pub fn by(&self, client: u16) -> u64
        ensures number { result ≡ get_or self.now client 0 }
        ensures fits { IsTrue (mark.fits result) }
    {
        let client = usize::from(client);
        if client < CLIENTS {
            self.numbers[client]
        } else {
            0
        }
    }

    // A client is told a number. No cluster has a client above 63, and no role answers one, so no run comes to the answer that there is
    // no memory.
    #[tactic(auto, using(crate::proofs::Hearing::raised_less, crate::proofs::Hearing::raised_more, crate::proofs::Hearing::still_marks))]
    fn raise(&mut self, client: u16, told: u64) -> Result<(), NoMemory>
        requires { IsTrue (mark.fits told) }
        ensures { OnOk result
            (Raised self.old self.new (λ other. if client == other then told else 0)) }
    {
        if told <= self.by(client) {
            return Ok(());
        }
        let client = usize::from(client);
        if client >= CLIENTS {
            return Err(NoMemory);
        }
        self.numbers[client] = told;
        Ok(())
    }

    // A datagram reaches its role.
    #[tactic(auto, using(crate::proofs::Hearing::take_none, crate::proofs::Hearing::take_one))]
    fn take(&mut self, datagram: &Datagram) -> Result<(), NoMemory>
        ensures { OnOk result
            (Raised self.old self.new (λ client. told_to client (Some datagram.now))) }
    {
        let to = datagram.to();
        if !is_client(to) {
            return Ok(());
        }
        self.raise(to.index, mark_told(datagram))?;
        Ok(())
    }
}

/// An event ended with this word: a client heard what it delivered, where the word says so. Out of memory also where a client above 63
/// is answered: no cluster has one, and no role answers one, so no run comes to that.
#[tactic(auto, using(crate::proofs::Hearing::hear_other, crate::proofs::Hearing::hear_nothing, crate::proofs::Hearing::hear_absent, crate::proofs::Hearing::hear_one))]
pub fn hear(heard: &mut Heard, sent: &Sent, event: &Event, why: Why) -> Result<(), NoMemory>
    ensures { OnOk result (Raised heard.old heard.new
        (λ client. heard_at client sent.now (record { event = event.now; why = why }))) }
{
    if !is_heard(why) {
        return Ok(());
    }
    let Some(number) = delivered(event) else {
        return Ok(());
    };
    match sent.get(number)? {
        None => Ok(()),
        Some(datagram) => {
            heard.take(&datagram)?;
            Ok(())
        }
    }
}
