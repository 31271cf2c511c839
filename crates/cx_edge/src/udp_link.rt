//! A link over UDP sockets of this machine.

ghost use Rattle.std.specs.Prelude.{◌≡◌, None, IfOk};
ghost use Rattle.cx_edge.specs.UdpLink.{EndsAs, TakenFits};

use crate::{Link, TakeEnd, Trouble};
use cx_base::{Faults, NoMemory, RoleId};
use cx_disk::Failed;
use mio::net::UdpSocket;
use mio::{Events, Interest, Poll, Token};
use std::alloc::{Allocator, Global};
use std::io;
use std::io::ErrorKind;
use std::marker::Model;
use std::net::{Ipv4Addr, Net, SocketAddr};
use std::rt::Clock;
use std::thread::sleep;
use std::time::Duration;

/// A role, its port and its socket.
#[derive(Drop)]
struct Bound {
    role: RoleId,
    port: u16,
    socket: UdpSocket,
}

/// What failed at a port.
#[derive(Clone, Copy)]
struct PortTrouble {
    port: u16,
    error: io::Error,
}

/// Carries datagrams over one socket of 127.0.0.1 for each bound role. While datagrams come, a take doesn't wait. Where none
/// comes, it waits for one, a millisecond at most, and asks no socket where the wait reported none. Its history isn't known.
#[derive(Drop)]
pub struct UdpLink<N> {
    net: N,
    // Or why there is none, as where the system has no more file descriptors. Without a poll each bind fails.
    poll: io::Result<Poll>,
    events: Events<Global>,
    sockets: Vec<Bound>,
    first: usize,
    // Whether the last take found nothing, and how many waits since then asked no socket.
    is_calm: bool,
    unasked: u32,
    faults: Faults,
    losses: Faults,
    // The last fault.
    trouble: Option<PortTrouble>,
}

impl<N> Model for UdpLink<N> {
    ghost use Rattle.cx_edge.specs.UdpLink.{UdpState};

    ghost Value = { UdpState };

    ghost view = { λ l. record { faults = l.faults; losses = l.losses } };
}

impl<N: Net> UdpLink<N> {
    /// The link with no role bound and room for `room` roles. All memory is taken here, none by a call.
    pub fn new(alloc: Global, net: N, room: usize) -> Result<Self, NoMemory>
    where
        N: Drop,
        ensures { IfOk result (λ link. link ≡ record { faults = 0; losses = 0 }) }
    {
        Ok(UdpLink {
            poll: Poll::new(&net),
            events: Events::with_capacity(alloc, 64)?,
            net,
            sockets: Vec::with_capacity(alloc, room)?,
            first: 0,
            is_calm: false,
            unasked: 0,
            faults: Faults::none(),
            losses: Faults::none(),
            trouble: None,
        })
    }
}

impl<N> UdpLink<N> {
    /// What the last bind or take that failed said.
    pub fn trouble(&self) -> Option<Trouble<'_>> {
        match self.trouble {
            Some(PortTrouble { port, error }) => Some(Trouble::Port { port, error }),
            None => None,
        }
    }
}

fn local(port: u16) -> SocketAddr {
    SocketAddr::from((Ipv4Addr::LOCALHOST, port))
}

/// A socket at this port, which doesn't wait.
fn opened<N: Net>(net: &N, port: u16) -> io::Result<UdpSocket> {
    UdpSocket::bind(net, local(port))
}

/// Has a datagram that comes to the socket end a wait.
fn register(poll: &io::Result<Poll>, socket: &mut UdpSocket) -> io::Result<()> {
    match poll {
        Ok(poll) => poll
            .registry()
            .register(socket, Token(0), Interest::READABLE),
        Err(error) => Err(*error),
    }
}

fn is_bound(sockets: &[Bound], role: RoleId) -> bool {
    sockets.iter().any(|bound| role.is(bound.role))
}

/// Sends from the role's socket, and says whether all bytes were taken.
fn is_sent(sockets: &[Bound], from: RoleId, port: u16, bytes: &[u8]) -> bool {
    for bound in sockets {
        if bound.role.is(from) {
            return match bound.socket.send_to(bytes, local(port)) {
                Ok(count) => count == bytes.len(),
                Err(_) => false,
            };
        }
    }
    false
}

/// What a take answers where a socket gave an error of this kind. That nothing is there is no fault, nor is an answer of the
/// network to an earlier send.
fn end_of(kind: ErrorKind) -> TakeEnd
    ensures { EndsAs kind result }
{
    match kind {
        ErrorKind::WouldBlock
        | ErrorKind::ConnectionRefused
        | ErrorKind::ConnectionReset
        | ErrorKind::HostUnreachable
        | ErrorKind::NetworkUnreachable => TakeEnd::Nothing,
        _ => TakeEnd::Failed,
    }
}

/// What is to be remembered of an error that a take gave.
fn noted(end: TakeEnd, port: u16, error: io::Error, trouble: &mut Option<PortTrouble>) {
    if let TakeEnd::Failed = end {
        *trouble = Some(PortTrouble { port, error });
    }
}

/// Takes a datagram from one socket.
fn received(bound: &Bound, buffer: &mut [u8], trouble: &mut Option<PortTrouble>) -> TakeEnd
    ensures { TakenFits buffer.new result }
{
    match bound.socket.recv_from(buffer) {
        Ok((count, _)) => TakeEnd::Got(count),
        Err(error) => {
            let end = end_of(error.kind());
            noted(end, bound.port, error, trouble);
            end
        }
    }
}

/// Asks each socket once, from one on, and says which comes first at the next take.
fn asked_in_turn(
    sockets: &[Bound],
    first: usize,
    buffer: &mut [u8],
    trouble: &mut Option<PortTrouble>,
) -> (usize, TakeEnd)
    ensures { TakenFits buffer.new result.1 }
{
    let mut at = first;
    for _ in 0..sockets.len() {
        if at >= sockets.len() {
            at = 0;
        }
        let end = received(&sockets[at], buffer, trouble);
        at += 1;
        if !matches!(end, TakeEnd::Nothing) {
            return (at, end);
        }
    }
    (first, TakeEnd::Nothing)
}

/// How long the first take that finds nothing lets further datagrams gather, in microseconds.
const GATHER: u64 = 50;

/// How long each further one waits, in microseconds.
const WAIT: u64 = 1_000;

/// After so many waits without an event the sockets are asked all the same.
const UNASKED: u32 = 16;

/// Waits for a datagram, for at most this time, and says whether one may have come; without a poll it can't tell. An event only
/// ends the wait, since the poll reports each one once: which sockets have a datagram is asked of the sockets. A failure ends it
/// too, and drops no event.
fn wait<A: Allocator>(poll: &mut io::Result<Poll>, events: &mut Events<A>, micros: u64) -> bool {
    let Ok(poll) = poll else {
        return true;
    };
    let _ = poll.poll(events, Some(Duration::from_micros(micros)));
    !events.is_empty()
}

impl<N> UdpLink<N> {
    // Waits for a datagram, and says whether the sockets are to be asked. No socket had one before the wait, so where it ends
    // without an event none has; but an error of the network hides a datagram that came after it, until the sockets are asked again.
    fn is_due(&mut self) -> bool
        ensures { self.new ≡ self.old }
    {
        let has_come = wait(&mut self.poll, &mut self.events, WAIT);
        if !has_come && self.unasked < UNASKED {
            self.unasked += 1;
            return false;
        }
        self.unasked = 0;
        true
    }
}

impl<N: Net> UdpLink<N> {
    // Binds the role, or says why it can't.
    fn bound(&mut self, role: RoleId, port: u16) -> io::Result<()>
        ensures { self.new ≡ self.old }
    {
        if is_bound(&self.sockets, role) {
            return Err(io::Error::other("the role has a port already"));
        }
        if self.sockets.len() >= self.sockets.capacity() {
            return Err(io::Error::other("no room for a further role"));
        }
        let mut socket = opened(&self.net, port)?;
        register(&self.poll, &mut socket)?;
        self.sockets.push_reserved(Bound { role, port, socket });
        Ok(())
    }
}

impl<N: Net + Clock> Link for UdpLink<N> {
    ghost history = { λ l. None };

    ghost faults = { λ l. l.faults };

    ghost losses = { λ l. l.losses };

    fn bind(&mut self, role: RoleId, port: u16) -> Result<(), Failed> {
        match self.bound(role, port) {
            Ok(()) => Ok(()),
            Err(error) => {
                self.trouble = Some(PortTrouble { port, error });
                self.faults.add();
                Err(Failed)
            }
        }
    }

    fn send(&mut self, from: RoleId, port: u16, bytes: &[u8]) -> Result<(), Failed> {
        if is_sent(&self.sockets, from, port, bytes) {
            return Ok(());
        }
        self.losses.add();
        Err(Failed)
    }

    fn take(&mut self, buffer: &mut [u8]) -> TakeEnd {
        let (mut first, mut end) = (self.first, TakeEnd::Nothing);
        if self.is_calm {
            if !self.is_due() {
                return TakeEnd::Nothing;
            }
        } else {
            (first, end) = asked_in_turn(&self.sockets, first, buffer, &mut self.trouble);
            if let TakeEnd::Nothing = end {
                // What is on its way to a batcher may fill a batch. The wait drops the events of what was already taken.
                sleep(&self.net, Duration::from_micros(GATHER));
                wait(&mut self.poll, &mut self.events, 0);
            }
        }
        if let TakeEnd::Nothing = end {
            (first, end) = asked_in_turn(&self.sockets, first, buffer, &mut self.trouble);
        }
        self.first = first;
        self.is_calm = matches!(end, TakeEnd::Nothing);
        if let TakeEnd::Failed = end {
            self.faults.add();
        }
        end
    }
}
