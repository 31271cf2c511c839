//! Which requests are outstanding.

ghost use Rattle.std.specs.Prelude.{◌≡◌, not, IsTrue};
ghost use Rattle.std.specs.List.{position};
ghost use Rattle.cx_base.specs.declared.event.Event.{Event as Happening};
ghost use Rattle.cx_client.specs.Window.{first_of, has_number, is_near, outstanding};
ghost use Rattle.cx_script.specs.Requests.{number_of, rise_above};

use cx_base::{Event, OUTSTANDING};

/// The number of a request, 0 of another event.
pub fn number_of(event: &Event) -> u64
    ensures { result ≡ number_of event.now }
{
    match event {
        Event::Write { command, .. } => command.seq,
        Event::Read { seq, .. } => *seq,
        Event::Session { seq, .. } => *seq,
        _ => 0,
    }
}

/// The number of the first request, 0 of none.
pub fn first_of(left: &[Event]) -> u64
    ensures { result ≡ first_of left.now }
{
    match left.first() {
        Some(event) => number_of(event),
        None => 0,
    }
}

// Whether a request's number is near enough to the first one, since a floor is the number before the first.
fn is_near(first: u64, event: &Event) -> bool
    ensures { result ≡ is_near first event.now }
{
    number_of(event).saturating_sub(first) < OUTSTANDING
}

// The place of the first request that isn't, if there is one.
fn first_far(first: u64, requests: &[Event]) -> Option<usize>
    ensures { result ≡ position (λ (e : Happening). not (is_near first e)) requests.now }
{
    requests.iter().position(|event| !is_near(first, event))
}

/// The outstanding ones of the requests that are left.
pub fn outstanding(left: &[Event], window: usize) -> &[Event]
    requires rising { IsTrue (rise_above 0 left.now) }
    ensures { result.now ≡ outstanding window left.now }
{
    let within = &left[..window.min(left.len())];
    match first_far(first_of(left), within) {
        Some(place) => &within[..place],
        None => within,
    }
}

/// The place of the request with this number, if there is one.
pub fn request_place(requests: &[Event], number: u64) -> Option<usize>
    ensures { result ≡ position (has_number number) requests.now }
{
    requests.iter().position(|event| number_of(event) == number)
}
