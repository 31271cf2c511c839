//! Worked steps of a client.

ghost use Rattle.cx_client.specs.Examples.{Worked};

/// What a client sends at first, at answers and at ticks, and what its sessions tell.
pub fn worked()
    ensures { Worked }
{}
