//! Events made from a seed.

ghost use Rattle.std.specs.Prelude.{◌≡◌, ◌<◌, ◌^◌, ◌+◌};
ghost use Rattle.cx_script.specs.Generator.{gen_cluster, gen_server, gen_grid, gen_number, gen_cut, gen_key, gen_value, gen_op, gen_event, later_event, next_number, drawn};

use cx_base::{Cluster, Command, Cut, Event, Grid, Key, Kind, Op, Order, RoleId, Text};
use std::marker::Model;

/// The cluster of generated events.
pub fn gen_cluster() -> Cluster
    ensures { result ≡ gen_cluster }
{
    Cluster {
        f: 1,
        leaders: 2,
        proxies: 2,
        acceptors: 6,
        replicas: 2,
        batchers: 1,
        unbatchers: 1,
        readers: 1,
        clients: 4,
        batch: 2,
        base_port: None,
        pool: 3,
        replacers: 0,
        one_entry_a_grid: false,
        own_proxies: false,
        keep_sets: false,
    }
}

/// Its roles that are no clients.
const SERVERS: [(Kind, u16); 18] = [
    (Kind::Batcher, 0),
    (Kind::Leader, 0),
    (Kind::Leader, 1),
    (Kind::Proxy, 0),
    (Kind::Proxy, 1),
    (Kind::Acceptor, 0),
    (Kind::Acceptor, 1),
    (Kind::Acceptor, 2),
    (Kind::Acceptor, 3),
    (Kind::Acceptor, 4),
    (Kind::Acceptor, 5),
    (Kind::Matchmaker, 0),
    (Kind::Matchmaker, 1),
    (Kind::Matchmaker, 2),
    (Kind::Replica, 0),
    (Kind::Replica, 1),
    (Kind::Unbatcher, 0),
    (Kind::Reader, 0),
];

fn server(b: u64) -> RoleId
    ensures { result ≡ gen_server b }
{
    let (kind, index) = SERVERS[(b % 18) as usize];
    RoleId::new(kind, index)
}

fn grid(c: u64) -> Grid
    ensures { result ≡ gen_grid c }
{
    match c % 3 {
        0 => Grid::from_parts(2, 2, &[0, 1, 2, 3]),
        1 => Grid::from_parts(2, 2, &[2, 3, 4, 5]),
        _ => Grid::from_parts(1, 3, &[0, 2, 4]),
    }
}

fn number(sent: u64, b: u64) -> u64
    ensures { result ≡ gen_number sent b }
{
    if sent == 0 {
        return 0;
    }
    sent - 1 - b % sent.min(24)
}

fn cut(c: u64) -> Cut
    ensures { result ≡ gen_cut c }
{
    match c % 64 {
        0 => Cut::Torn,
        1 => Cut::Kept,
        _ => Cut::Whole,
    }
}

fn key(c: u64) -> Key
    ensures { result ≡ gen_key c }
{
    Key::new(&[b'k', b'0' + (c % 8) as u8])
}

fn text(d: u64) -> Text
    ensures { result ≡ gen_value d }
{
    Text::new(&[b'v', b'0' + (d / 3 % 10) as u8])
}

fn op(c: u64, d: u64) -> Op
    ensures { result ≡ gen_op c d }
{
    match d % 3 {
        0 => Op::Put(key(c), text(d)),
        1 => Op::Del(key(c)),
        _ => Op::App(key(c), text(d)),
    }
}

fn ordered(leader: u16, order: Order) -> Event
    ensures { result ≡ Event.Order leader order Cut.Whole }
{
    Event::Order {
        leader,
        order,
        cut: Cut::Whole,
    }
}

// An event after the first, by what is left of the first draw over 100.
fn later_event(made: u64, sent: u64, a: u64, b: u64, c: u64, d: u64) -> Event
    requires { made + 1 < 2 ^ 64 }
    ensures { result ≡ later_event made sent a b c d }
{
    let leader = (b % 2) as u16;
    let client = (b % 4) as u16;
    let seq = made + 1;
    match a {
        0..=64 => Event::Deliver {
            number: number(sent, b),
            cut: cut(c),
        },
        65..=76 => Event::Write {
            command: Command {
                client,
                seq,
                floor: made,
                op: op(c, d),
            },
            batcher: 0,
        },
        77..=81 => Event::Read {
            client,
            seq,
            floor: made,
            reader: 0,
            replica: (d % 2) as u16,
            key: key(c),
        },
        82..=90 => Event::Tick(server(b)),
        91 => ordered(leader, Order::Lead(grid(c))),
        92 => ordered(leader, Order::Change(grid(c))),
        93 => ordered(leader, Order::Collect),
        94 => Event::Crash(server(b)),
        _ => Event::Restart(server(b)),
    }
}

#[tactic(auto, unfolding(crate::specs::Generator::gen_event))]
fn event(made: u64, sent: u64, a: u64, b: u64, c: u64, d: u64) -> Event
    requires { made + 1 < 2 ^ 64 }
    ensures { result ≡ gen_event made sent a b c d }
{
    if made == 0 {
        return ordered(0, Order::Lead(grid(0)));
    }
    later_event(made, sent, a % 100, b, c, d)
}

/// A generator of events: deliveries for two thirds, then requests, ticks, orders, crashes and restarts (this project's own
/// mixture).
#[derive(Drop)]
pub struct Gen {
    x: u64,
    made: u64,
}

impl Model for Gen {
    ghost use Rattle.cx_script.specs.Generator.{GeneratorState};

    ghost Value = { GeneratorState };

    ghost view = { λ g. record { x = g.x; made = g.made } };
}

impl Gen {
    ghost use Rattle.cx_script.specs.Generator.{next_event, next_state};

    /// The generator of this seed.
    pub fn new(seed: u64) -> Self
        ensures { result ≡ record { x = seed; made = 0 } }
    {
        Gen { x: seed, made: 0 }
    }

    #[tactic(auto, unfolding(crate::specs::Generator::drawn, crate::specs::Generator::next_number))]
    fn draw(&mut self) -> u64
        ensures drawn { result ≡ drawn self.old.x }
        ensures state { self.new ≡ record self.old { x = next_number self.old.x } }
    {
        self.x = self
            .x
            .wrapping_mul(6364136223846793005)
            .wrapping_add(1442695040888963407);
        self.x >> 32
    }

    /// The next event of a run in which this many datagrams were sent; a request's number is one more than the number of the
    /// events before.
    #[tactic(auto, unfolding(crate::specs::Generator::next_event, crate::specs::Generator::next_state))]
    pub fn next(&mut self, sent: u64) -> Event
        requires { self.old.made + 1 < 2 ^ 64 }
        ensures event { result ≡ next_event self.old sent }
        ensures state { self.new ≡ next_state self.old }
        ensures made { self.new.made ≡ self.old.made + 1 }
    {
        let made = self.made;
        let a = self.draw();
        let b = self.draw();
        let c = self.draw();
        let d = self.draw();
        self.made = made + 1;
        event(made, sent, a, b, c, d)
    }
}
