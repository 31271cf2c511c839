//! Which datagrams answer a client.

ghost use Rattle.std.specs.Prelude.{◌≡◌};
ghost use Rattle.cx_history.specs.Answers.{is_answer, is_read_answer};

use cx_letter::{Datagram, Msg};

/// Whether a datagram answers a command.
pub fn is_answer(datagram: &Datagram) -> bool
    ensures { result ≡ is_answer datagram.now.msg }
{
    matches!(datagram.msg(), Msg::Answer { .. })
}

/// Whether a datagram answers a read or a session read.
pub fn is_read_answer(datagram: &Datagram) -> bool
    ensures { result ≡ is_read_answer datagram.now.msg }
{
    matches!(datagram.msg(), Msg::ReadAnswer { .. })
}
