//! What a tended node counts.

ghost use Rattle.std.specs.Prelude.{◌≡◌, ◌==◌, ◌&&◌, not, min, filter, List, length, IfOk, OnOk};
ghost use Rattle.std.specs.List.{sum};
ghost use Rattle.cx_base.specs.Lists.{below};
ghost use Rattle.cx_course.specs.Hosted.{Hosted};
ghost use Rattle.cx_course.specs.Tending.{asks_again, beat_over, clients_noted, care_after_turn, is_beat, had_completed, is_still};
ghost use Rattle.cx_course.specs.Tending.{is_time, leader_noted, no_care, pass_begun, passes, requeued};

use cx_base::NoMemory;
use std::alloc::Global;
use std::marker::Model;

// How many takes that gave nothing make a beat.
const BEAT: u32 = 64;

// After how many in a row proxy leaders ask again.
const PAUSE: u32 = 8;

/// What a tended node has counted.
#[derive(Drop)]
pub struct Care {
    // Turns since the last beat, and of their takes those that gave nothing after one that gave nothing.
    turns: u32,
    empty: u32,
    // Whether the last take gave something, and how many in a row up to it gave nothing.
    came: bool,
    calm: u32,
    // How many requests the hosted clients had completed at the last beat, and for how many beats they have completed none.
    done: u64,
    still: u32,
    // How many each hosted role had completed when the last pass began; and the places of all, in the order in which
    // clients ask at its end.
    counts: Vec<u64>,
    queue: Vec<usize>,
    // The leader's chosen watermark at the last beat, and for how many beats it has not risen while a slot was open.
    cw: u64,
    stuck: u32,
}

impl Model for Care {
    ghost use Rattle.cx_course.specs.Tending.{Care as CareState};

    ghost Value = { CareState };

    ghost view = { λ k. record {
      turns = k.turns;
      empty = k.empty;
      came = k.came;
      calm = k.calm;
      done = k.done;
      still = k.still;
      counts = k.counts.items;
      queue = k.queue.items;
      cw = k.cw;
      stuck = k.stuck;
    } };
}

// The sum of these numbers, as far as it fits.
fn total(numbers: &[u64]) -> u64
    ensures { result ≡ min (sum numbers.now) 18446744073709551615 }
{
    let mut total = 0u64;
    for number in numbers {
        total = total.saturating_add(*number);
    }
    total
}

// All places.
fn places(alloc: Global, count: usize) -> Result<Vec<usize>, NoMemory>
    ensures { IfOk result (λ places. places.items ≡ below count) }
{
    let places = (0..count).collect::<Vec<usize>>(alloc)?;
    Ok(places)
}

// Whether the role at this place had completed this many.
fn had_completed(counts: &[u64], place: usize, done: u64) -> bool
    ensures { result ≡ had_completed counts.now place done }
{
    match counts.get(place) {
        Some(count) => *count == done,
        None => false,
    }
}

// Whether the role at this place has completed as many by now as before.
fn is_still(before: &[u64], now: &[u64], place: usize) -> bool
    ensures { result ≡ is_still before.now now.now place }
{
    match now.get(place) {
        Some(done) => had_completed(before, place, *done),
        None => false,
    }
}

// Those of the queue that completed none.
fn waiting(
    alloc: Global,
    before: &[u64],
    now: &[u64],
    queue: &[usize],
) -> Result<Vec<usize>, NoMemory>
    ensures { IfOk result (λ list. list.items ≡ filter (is_still before.now now.now) queue.now) }
{
    let list = queue
        .iter()
        .copied()
        .filter(|place| is_still(before, now, *place))
        .collect::<Vec<usize>>(alloc)?;
    Ok(list)
}

// Those of the queue that completed some.
fn served(
    alloc: Global,
    before: &[u64],
    now: &[u64],
    queue: &[usize],
) -> Result<Vec<usize>, NoMemory>
    ensures { IfOk result
        (λ list. list.items ≡ filter (λ i. not (is_still before.now now.now i)) queue.now) }
{
    let list = queue
        .iter()
        .copied()
        .filter(|place| !is_still(before, now, *place))
        .collect::<Vec<usize>>(alloc)?;
    Ok(list)
}

// The order of the next pass.
fn requeued(
    alloc: Global,
    before: &[u64],
    now: &[u64],
    queue: &[usize],
) -> Result<Vec<usize>, NoMemory>
    ensures { IfOk result (λ next. next.items ≡ requeued before.now now.now queue.now) }
{
    let mut next = waiting(alloc, before, now, queue)?;
    let behind = served(alloc, before, now, queue)?;
    next.extend_from_slice(&behind)?;
    Ok(next)
}

impl Care {
    /// Nothing is counted yet, of this many hosted roles.
    pub fn new(alloc: Global, roles: usize) -> Result<Self, NoMemory>
        ensures { (hs : List Hosted) → length hs ≡ roles → IfOk result (λ care. care ≡ no_care hs) }
    {
        let Ok(counts) = vec![in alloc; 0u64; roles] else {
            return Err(NoMemory);
        };
        let queue = places(alloc, roles)?;
        Ok(Care {
            turns: 0,
            empty: 0,
            came: false,
            calm: 0,
            done: 0,
            still: 0,
            counts,
            queue,
            cw: 0,
            stuck: 0,
        })
    }

    /// Whether the last take gave something, and this one nothing.
    pub fn has_paused(&self, came: bool) -> bool
        ensures { result ≡ (self.now.came && not came) }
    {
        self.came && !came
    }

    /// Whether this take is the 8th in a row that gave nothing.
    pub fn has_waited(&self, came: bool) -> bool
        ensures { result ≡ ((self.now.calm == 7) && not came) }
    {
        self.calm == PAUSE - 1 && !came
    }

    /// Counts a turn.
    #[tactic(auto, unfolding(cx_course::specs::Tending::care_after_turn))]
    pub fn count(&mut self, came: bool)
        ensures { self.new ≡ care_after_turn came self.old }
    {
        self.turns = self.turns.saturating_add(1);
        if !came && !self.came {
            self.empty = self.empty.saturating_add(1);
        }
        self.came = came;
        self.calm = if came { 0 } else { self.calm.saturating_add(1) };
    }

    /// Whether the turn ends with a beat: after 64 takes that gave nothing after one that gave nothing, or after `most` turns.
    #[tactic(auto, unfolding(cx_course::specs::Tending::is_beat))]
    pub fn is_beat(&self, most: u32) -> bool
        ensures { result ≡ is_beat most self.now }
    {
        BEAT <= self.empty || most <= self.turns
    }

    /// Begins to count to the next beat.
    pub fn begin_beat(&mut self)
        ensures { self.new ≡ beat_over self.old }
    {
        self.turns = 0;
        self.empty = 0;
    }

    /// Notes at a beat where the leader is: its chosen watermark, and whether a slot is open.
    #[tactic(auto, unfolding(cx_course::specs::Tending::leader_noted))]
    pub fn note_leader(&mut self, cw: u64, has_open: bool)
        ensures { self.new ≡ leader_noted cw has_open self.old }
    {
        if self.cw < cw || !has_open {
            self.cw = cw;
            self.stuck = 0;
        } else {
            self.stuck = self.stuck.saturating_add(1);
        }
    }

    /// Whether it is time for the next round of a leader that is spent.
    #[tactic(auto, unfolding(cx_course::specs::Tending::is_time))]
    pub fn is_time(&self) -> bool
        ensures { result ≡ is_time self.now.stuck }
    {
        let stuck = self.stuck;
        matches!(stuck, 16 | 32 | 64 | 128 | 256 | 512) || 1_024 <= stuck && stuck % 1_024 == 0
    }

    /// Notes at a beat how many requests the clients have completed.
    #[tactic(auto, unfolding(cx_course::specs::Tending::clients_noted))]
    pub fn note_clients(&mut self, done: u64)
        ensures { self.new ≡ clients_noted done self.old }
    {
        if self.done < done {
            self.done = done;
            self.still = 0;
        } else {
            self.still = self.still.saturating_add(1);
        }
    }

    /// For how many beats the clients have completed no request.
    pub fn still(&self) -> u32
        ensures { result ≡ self.now.still }
    {
        self.still
    }

    /// Whether all clients ask again.
    #[tactic(auto, unfolding(cx_course::specs::Tending::asks_again))]
    pub fn asks_again(&self) -> bool
        ensures { result ≡ asks_again self.now.still }
    {
        let still = self.still;
        matches!(still, 1 | 2 | 4 | 8) || 16 <= still && still % 16 == 0
    }

    /// Whether a pass ends: more than two requests a client were completed in it.
    #[tactic(auto, unfolding(cx_course::specs::Tending::passes))]
    pub fn passes(&self, clients: usize, done: u64) -> bool
        ensures { result ≡ passes clients done self.now }
    {
        let asked = (clients as u64).saturating_mul(2);
        total(&self.counts).saturating_add(asked) < done
    }

    /// Whether the role at this place had completed this many when the pass began.
    pub fn had_completed(&self, place: usize, done: u64) -> bool
        ensures { result ≡ had_completed self.now.counts place done }
    {
        had_completed(&self.counts, place, done)
    }

    /// The places of all roles, in the order in which clients ask.
    pub fn queue(&self) -> &[usize]
        ensures { result.now ≡ self.now.queue }
    {
        &self.queue
    }

    /// The next pass begins, with these numbers of requests completed by each role. Who completed none in this one stays
    /// in front.
    pub fn begin_pass(&mut self, alloc: Global, counts: Vec<u64>) -> Result<(), NoMemory>
        ensures { OnOk result (self.new ≡ pass_begun counts.items self.old) }
    {
        let queue = requeued(alloc, &self.counts, &counts, &self.queue)?;
        self.counts = counts;
        self.queue = queue;
        Ok(())
    }
}
