//! How a client asks, and whom.

ghost use Rattle.std.specs.Prelude.{◌≡◌, ◌≤◌};
ghost use Rattle.cx_client.specs.Asking.{further, one_further, set_back};

/// How many requests of a client may be outstanding at a time, and whether it asks others when it asks again.
#[derive(Clone, Copy, Debug, PartialEq, Eq)]
pub struct ClientOptions {
    pub window: u8,
    pub others: bool,
}

/// The index so many places further, of so many; behind the last one comes the first.
pub fn further(shift: Option<u32>, index: u16, count: u16) -> u16
    requires { 1 ≤ count }
    ensures { result ≡ further shift index count }
{
    match shift {
        Some(places) => ((u64::from(index) + u64::from(places)) % u64::from(count)) as u16,
        None => index,
    }
}

/// How many places further a client is when it asks again.
pub fn one_further(shift: Option<u32>) -> Option<u32>
    ensures { result ≡ one_further shift }
{
    match shift {
        Some(places) => Some(places.saturating_add(1)),
        None => None,
    }
}

/// And once one of its requests is completed.
pub fn set_back(shift: Option<u32>) -> Option<u32>
    ensures { result ≡ set_back shift }
{
    match shift {
        Some(_) => Some(0),
        None => None,
    }
}
