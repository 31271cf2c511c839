//! A session's questions to a replica, with the datagrams that it takes as bytes.

use cx_base::{Cluster, Kind, RoleId, Why};
use cx_keeper::MemKeeper;
use cx_msg::{Msg, decode};
use cx_replica::Replica;
use cx_role::{Outbox, Role};
use std::alloc::Global;
use std::test::Fail;

const CLUSTER: Cluster = Cluster {
    f: 1,
    leaders: 2,
    proxies: 1,
    acceptors: 4,
    replicas: 2,
    batchers: 1,
    unbatchers: 1,
    readers: 1,
    clients: 1,
    batch: 1,
    base_port: None,
    pool: 3,
    replacers: 0,
    one_entry_a_grid: false,
    own_proxies: false,
    keep_sets: false,
};

// Client 0's command number 1, put a 1, is chosen for slot 0; told to replica 1.
const CHOSEN: [u8; 37] = [
    67, 88, 1, 13, 4, 0, 0, 7, 0, 1, 0, 25, 0, 0, 0, 0, 0, 0, 0, 0, 1, 1, 0, 0, 0, 0, 0, 0, 0, 0,
    0, 1, 1, 1, b'a', 1, b'1',
];

// Client 0 asks replica 1 for the key a, in a session, once it holds so many slots.
fn session(seq: u8, mark: u8) -> [u8; 30] {
    [
        67, 88, 1, 38, 1, 0, 0, 7, 0, 1, 0, 18, 0, 0, 0, 0, 0, 0, 0, seq, 0, 0, 0, 0, 0, 0, 0,
        mark, 1, b'a',
    ]
}

// What the replica is given.
#[derive(Drop)]
enum Step {
    Session(u8, u8),
    Chosen,
}

#[derive(Drop)]
struct Bench {
    alloc: Global,
    replica: Replica,
    keeper: MemKeeper,
    out: Outbox,
}

// How many datagrams were sent, to whom the last, and what it says: the number, the slots held and a text's first byte, 0 of none.
type Answered = Option<(usize, u16, u64, u64, u8)>;

impl Bench {
    fn take(&mut self, bytes: &[u8]) -> Option<Why> {
        let datagram = decode(self.alloc, bytes).ok()?;
        self.out.clear();
        if !self.replica.live() {
            return None;
        }
        self.replica
            .take(&mut self.keeper, &datagram, &mut self.out)
            .ok()
    }

    fn step(&mut self, step: &Step) -> Option<Why> {
        match step {
            Step::Session(seq, mark) => self.take(&session(*seq, *mark)),
            Step::Chosen => self.take(&CHOSEN),
        }
    }

    fn answered(&self) -> Answered {
        let last = self.out.as_slice().last()?;
        let Msg::ReadAnswer { seq, mark, found } = last.msg() else {
            return None;
        };
        let first = match found {
            Some(text) => *text.as_bytes().first()?,
            None => 0,
        };
        Some((self.out.len(), last.to().index, *seq, *mark, first))
    }
}

// Each step with its answer, and what is told. The other replica is the one to answer the command.
const STEPS: [(Step, Why, Answered); 4] = [
    (Step::Session(2, 0), Why::Answered, Some((1, 0, 2, 0, 0))),
    (Step::Session(3, 1), Why::Deferred, None),
    (Step::Session(3, 1), Why::Same, None),
    (Step::Chosen, Why::Applied, Some((1, 0, 3, 1, b'1'))),
];

#[test]
fn answers_sessions(rt: HostRuntime) -> Result<(), Fail> {
    let alloc = rt.alloc();
    let mut bench = Bench {
        alloc,
        replica: Replica::open(alloc, &CLUSTER, RoleId::new(Kind::Replica, 1), &[])?,
        keeper: MemKeeper::new(alloc),
        out: Outbox::new(alloc),
    };
    for (step, why, answered) in &STEPS {
        assert_eq!(rt; bench.step(step), Some(*why));
        assert_eq!(rt; bench.answered(), *answered);
    }
    Ok(())
}
