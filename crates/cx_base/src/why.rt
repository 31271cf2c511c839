//! The result of a step, in one word.

ghost use Rattle.std.specs.Prelude.{◌≡◌};
ghost use Rattle.cx_base.specs.Why.{why_text};

/// The word that says the result of a step.
#[derive(Clone, Copy, Debug, PartialEq, Eq)]
pub enum Why {
    /// No such datagram was sent yet.
    Absent,
    /// The matchmaker accepted the next set.
    Accepted,
    /// A waiting read now asks what was asked again; or the batch's first read begins it anew, with all that wait.
    Again,
    /// The read, or session read, was answered.
    Answered,
    /// The values in order were kept and executed.
    Applied,
    /// What was asked was answered.
    Asked,
    /// The next question went out.
    Asking,
    /// The gathered commands went to a leader.
    Batched,
    /// The matchmaker began as a member of a set.
    Booted,
    /// The leader goes on from its round before, and asks no acceptor.
    Bypassed,
    /// A value is now known to be chosen.
    Chosen,
    /// The round is below the retirement watermark.
    Collected,
    /// The matchmakers were asked to forget earlier rounds.
    Collecting,
    /// The answer counts, and more are needed.
    Counted,
    /// The role stopped.
    Crashed,
    /// The next set of matchmakers is decided.
    Decided,
    /// The read, or session read, waits until enough is executed.
    Deferred,
    /// All was announced before.
    Done,
    /// The role is not running.
    Down,
    /// The value waits for those before it.
    Early,
    /// There is no next round, ballot or turn.
    End,
    /// The value was sent again.
    Fetched,
    /// There is no room for more; of a replacer: too many rounds to join.
    Full,
    /// The matchmaker stopped.
    Halted,
    /// A client has it.
    Heard,
    /// It was noted, or gathered for a batch.
    Held,
    /// There is nothing to do.
    Idle,
    /// The chosen watermark was kept.
    Informed,
    /// The chosen watermark is sent to the grid.
    Informing,
    /// The role crashed while its store was changed, and the change is kept.
    Kept,
    /// A later round is recorded.
    Later,
    /// The leader leads, or is known to.
    Leads,
    /// A later set of matchmakers is known.
    Learnt,
    /// The round and its grid were recorded.
    Matched,
    /// A greater round was promised.
    Nack,
    /// The leader gave up its round.
    Nacked,
    /// The matchmaker is of no set yet.
    New,
    /// It belongs to an earlier round or stage.
    Old,
    /// The role runs again.
    Opened,
    /// The slot lies below the chosen watermark; of a replica: it has the slot already, or has forgotten what it is asked for.
    Past,
    /// The acceptors of earlier grids are asked.
    Phase1,
    /// The round was promised.
    Promised,
    /// The value has a slot.
    Proposed,
    /// The read waits until the asking that runs is done.
    Queued,
    /// The retirement watermark was raised.
    Raised,
    /// The next set of matchmakers is at work.
    Replaced,
    /// All that is waited for was sent again.
    Resent,
    /// All earlier rounds are retired.
    Retired,
    /// It was taken before; what is answered to it is answered again. So a matchmaker says where it is to forget rounds below one
    /// that isn't above its retirement watermark.
    Same,
    /// The request went out.
    Sent,
    /// The replica forgot values, and its list was renewed.
    Snapped,
    /// The request may not be made any more.
    Stale,
    /// A round, a ballot or a batch of reads began.
    Started,
    /// The matchmaker has stopped.
    Stopped,
    /// It is nothing for this role.
    Stranger,
    /// The role crashed while its store was changed, and the change is lost.
    Torn,
    /// Nobody waits for it.
    Unasked,
    /// Each client got its answer.
    Unbatched,
    /// The role runs already.
    Up,
    /// The vote was kept.
    Voted,
    /// Earlier rounds may not be retired as yet, since a slot is not known to be chosen.
    Waiting,
    /// The slot lies past the window; of a leader: no slot of it is free.
    Window,
}

impl Why {
    /// The word as it is written in a trace.
    pub fn text(self) -> &'static str
        ensures { result.now ≡ why_text self }
    {
        match self {
            Why::Absent => "absent",
            Why::Accepted => "accepted",
            Why::Again => "again",
            Why::Answered => "answered",
            Why::Applied => "applied",
            Why::Asked => "asked",
            Why::Asking => "asking",
            Why::Batched => "batched",
            Why::Booted => "booted",
            Why::Bypassed => "bypassed",
            Why::Chosen => "chosen",
            Why::Collected => "collected",
            Why::Collecting => "collecting",
            Why::Counted => "counted",
            Why::Crashed => "crashed",
            Why::Decided => "decided",
            Why::Deferred => "deferred",
            Why::Done => "done",
            Why::Down => "down",
            Why::Early => "early",
            Why::End => "end",
            Why::Fetched => "fetched",
            Why::Full => "full",
            Why::Halted => "halted",
            Why::Heard => "heard",
            Why::Held => "held",
            Why::Idle => "idle",
            Why::Informed => "informed",
            Why::Informing => "informing",
            Why::Kept => "kept",
            Why::Later => "later",
            Why::Leads => "leads",
            Why::Learnt => "learnt",
            Why::Matched => "matched",
            Why::Nack => "nack",
            Why::Nacked => "nacked",
            Why::New => "new",
            Why::Old => "old",
            Why::Opened => "opened",
            Why::Past => "past",
            Why::Phase1 => "phase1",
            Why::Promised => "promised",
            Why::Proposed => "proposed",
            Why::Queued => "queued",
            Why::Raised => "raised",
            Why::Replaced => "replaced",
            Why::Resent => "resent",
            Why::Retired => "retired",
            Why::Same => "same",
            Why::Sent => "sent",
            Why::Snapped => "snapped",
            Why::Stale => "stale",
            Why::Started => "started",
            Why::Stopped => "stopped",
            Why::Stranger => "stranger",
            Why::Torn => "torn",
            Why::Unasked => "unasked",
            Why::Unbatched => "unbatched",
            Why::Up => "up",
            Why::Voted => "voted",
            Why::Waiting => "waiting",
            Why::Window => "window",
        }
    }
}
