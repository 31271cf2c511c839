//! Worked runs: for each list of events a law that says, step by step, what the model makes of it: the words, the records
//! that are kept, the datagrams that are sent, and what is chosen at the end.
//!
//! The model did not compute what is expected here: it was worked out from the description of the protocol, by hand or by
//! a program that was written apart. So a wrong row is refused here, before anything else rests on it.
#![tactic(auto, unfolding(crate::specs::World::step, crate::specs::State::set_state, crate::specs::Replica::pieces_of))]

ghost use Rattle.cx_model.specs.ExamplesAcceptedSetIsDecided.{AcceptedSetIsDecided};
ghost use Rattle.cx_model.specs.ExamplesAnswersOfOtherRounds.{AnswersOfOtherRounds};
ghost use Rattle.cx_model.specs.ExamplesChangeAsksNobody.{ChangeAsksNobody};
ghost use Rattle.cx_model.specs.ExamplesChangeIsForgotten.{ChangeIsForgotten};
ghost use Rattle.cx_model.specs.ExamplesChangeJumpsOverHeldSlots.{ChangeJumpsOverHeldSlots};
ghost use Rattle.cx_model.specs.ExamplesChangeLeavesHeldSlots.{ChangeLeavesHeldSlots};
ghost use Rattle.cx_model.specs.ExamplesChangeSettlesAnew.{ChangeSettlesAnew};
ghost use Rattle.cx_model.specs.ExamplesCommandActsOnce.{CommandActsOnce};
ghost use Rattle.cx_model.specs.ExamplesCutTurn.{CutTurn};
ghost use Rattle.cx_model.specs.ExamplesDeferredRead.{DeferredRead};
ghost use Rattle.cx_model.specs.ExamplesEachAnswerCountsOnce.{EachAnswerCountsOnce};
ghost use Rattle.cx_model.specs.ExamplesFirstReadAgain.{FirstReadAgain};
ghost use Rattle.cx_model.specs.ExamplesGapGetsANoop.{GapGetsANoop};
ghost use Rattle.cx_model.specs.ExamplesGreatestRoundIsProposed.{GreatestRoundIsProposed};
ghost use Rattle.cx_model.specs.ExamplesHeldSlotsAreForgotten.{HeldSlotsAreForgotten};
ghost use Rattle.cx_model.specs.ExamplesKeptAppend.{KeptAppend};
ghost use Rattle.cx_model.specs.ExamplesLateRequestsAreRefused.{LateRequestsAreRefused};
ghost use Rattle.cx_model.specs.ExamplesLaterReadsWait.{LaterReadsWait};
ghost use Rattle.cx_model.specs.ExamplesLaterRound.{LaterRound};
ghost use Rattle.cx_model.specs.ExamplesLeadersHaveOwnProxies.{LeadersHaveOwnProxies};
ghost use Rattle.cx_model.specs.ExamplesLimits.{Limits};
ghost use Rattle.cx_model.specs.ExamplesLowerNumberActs.{LowerNumberActs};
ghost use Rattle.cx_model.specs.ExamplesLowerRoundIsRefused.{LowerRoundIsRefused};
ghost use Rattle.cx_model.specs.ExamplesMatchmakersAreReplaced.{MatchmakersAreReplaced};
ghost use Rattle.cx_model.specs.ExamplesOldAnswerIsNotCounted.{OldAnswerIsNotCounted};
ghost use Rattle.cx_model.specs.ExamplesOlderRoundIsRefused.{OlderRoundIsRefused};
ghost use Rattle.cx_model.specs.ExamplesOneEntryAGrid.{OneEntryAGrid};
ghost use Rattle.cx_model.specs.ExamplesOnePut.{OnePut};
ghost use Rattle.cx_model.specs.ExamplesOvertakenCommand.{OvertakenCommand};
ghost use Rattle.cx_model.specs.ExamplesOwnEntryStays.{OwnEntryStays};
ghost use Rattle.cx_model.specs.ExamplesReadAsksTheNextSet.{ReadAsksTheNextSet};
ghost use Rattle.cx_model.specs.ExamplesReaderForgets.{ReaderForgets};
ghost use Rattle.cx_model.specs.ExamplesRefusedChange.{RefusedChange};
ghost use Rattle.cx_model.specs.ExamplesRepeatTellsItsFloor.{RepeatTellsItsFloor};
ghost use Rattle.cx_model.specs.ExamplesRepeatsChangeNothing.{RepeatsChangeNothing};
ghost use Rattle.cx_model.specs.ExamplesReplicaOffersValues.{ReplicaOffersValues};
ghost use Rattle.cx_model.specs.ExamplesRetireEarlierRounds.{RetireEarlierRounds};
ghost use Rattle.cx_model.specs.ExamplesRetiredGridIsNotAsked.{RetiredGridIsNotAsked};
ghost use Rattle.cx_model.specs.ExamplesRowIsNoColumn.{RowIsNoColumn};
ghost use Rattle.cx_model.specs.ExamplesSession.{Session};
ghost use Rattle.cx_model.specs.ExamplesSetIsKept.{SetIsKept};
ghost use Rattle.cx_model.specs.ExamplesSnapshotOfOne.{SnapshotOfOne};
ghost use Rattle.cx_model.specs.ExamplesSnapshotWaits.{SnapshotWaits};
ghost use Rattle.cx_model.specs.ExamplesAcceptorPutsItsListAnew.{AcceptorPutsItsListAnew};
ghost use Rattle.cx_model.specs.ExamplesReaderPutsItsListAnew.{ReaderPutsItsListAnew};
ghost use Rattle.cx_model.specs.ExamplesStaleRequests.{StaleRequests};
ghost use Rattle.cx_model.specs.ExamplesStoppedLogsAreJoined.{StoppedLogsAreJoined};
ghost use Rattle.cx_model.specs.ExamplesTornAppend.{TornAppend};
ghost use Rattle.cx_model.specs.ExamplesValuesInSlotOrder.{ValuesInSlotOrder};

/// A client's command is batched, proposed, voted for, chosen, executed and answered. Each kind of role but the reader
/// takes its part once.
pub fn one_put()
    ensures { OnePut }
{}

/// The acceptor is asked twice for one vote: it keeps one, and reports it again. The proxy leader, which hears of it twice, announces the
/// value once.
pub fn repeats_change_nothing()
    ensures { RepeatsChangeNothing }
{}

/// The acceptor crashes inside its append and the vote is lost: nothing is sent, and nothing is chosen. Asked again when it
/// is open, it votes.
pub fn torn_append()
    ensures { TornAppend }
{}

/// The acceptor crashes inside its append and the vote is kept: nothing is sent, and the value is chosen though nobody
/// knows it. Asked again when it is open, it reports its vote.
pub fn kept_append()
    ensures { KeptAppend }
{}

/// A grid of two rows and two columns, where both acceptors of a row have voted: nothing is chosen. With a third vote a
/// column has voted, and the value is chosen.
pub fn row_is_no_column()
    ensures { RowIsNoColumn }
{}

/// A leader begins a later round with a grid of its own: the matchmaker reports the earlier round, that round's acceptor
/// reports its vote, and the same value is chosen again. A vote of the earlier round that comes late counts no more.
pub fn later_round()
    ensures { LaterRound }
{}

/// Of two commands that have a slot only the second had a vote when a later round began. That round proposes nothing to do
/// in the first slot, and in the second the command that was voted for.
pub fn gap_gets_a_noop()
    ensures { GapGetsANoop }
{}

/// The leader of the earlier round still gets a batch and proposes it. The acceptor has promised the later round and
/// refuses, and the leader gives up its round.
pub fn older_round_is_refused()
    ensures { OlderRoundIsRefused }
{}

/// The order to retire waits until all that the later round proposed at first is known to be chosen. Then a column of its
/// grid is informed how many slots are held, and enough matchmakers forget the earlier round.
pub fn retire_earlier_rounds()
    ensures { RetireEarlierRounds }
{}

/// Once the earlier round is retired its acceptor may crash for good. Neither the next round nor a read asks it.
pub fn retired_grid_is_not_asked()
    ensures { RetiredGridIsNotAsked }
{}

/// A read comes to a replica that holds less than the acceptors voted for, and is deferred. It is answered when the replica
/// has executed the value.
pub fn deferred_read()
    ensures { DeferredRead }
{}

/// A client asks a replica in a session: the number that it heard is the mark, for which a replica that holds less waits. Another
/// key under the same number is not sent. An answer that was delivered before it was sent was not heard.
pub fn session()
    ensures { Session }
{}

/// A reader crashes and forgets the running batch, but not its turn. Asked again, the read runs under the next turn, and
/// answers to the earlier one do not count: they may be older than what is read.
pub fn reader_forgets()
    ensures { ReaderForgets }
{}

/// Two reads come while a batch of an earlier one runs: they wait. When it is done, one asking serves both.
pub fn later_reads_wait()
    ensures { LaterReadsWait }
{}

/// The first read of the running batch is asked for again: the batch begins anew, under the next turn and with the read that
/// waited. Answers to the turn before do not count. Another running read that is asked for again changes nothing, and one that
/// waits waits on.
pub fn first_read_again()
    ensures { FirstReadAgain }
{}

/// A reader crashes inside the append of its turn. Where the turn was lost, nothing was asked under it, and it is the next
/// one; where it was kept it is used up, though nobody was asked. A tick asks again under the same turn.
pub fn cut_turn()
    ensures { CutTurn }
{}

/// A client sends its command twice, and it is chosen in two slots. It acts once, and has the same answer again.
pub fn command_acts_once()
    ensures { CommandActsOnce }
{}

/// A client's second command is chosen before its first, with which the client is done. The first does not act any more, and
/// has no answer.
pub fn overtaken_command()
    ensures { OvertakenCommand }
{}

/// A client's second command is chosen before its first, and tells that the client isn't done with the first: both act. Later
/// requests go out by the floors that were told: one above all of them, though it is below the greatest number, and one again,
/// whatever its floor.
pub fn lower_number_acts()
    ensures { LowerNumberActs }
{}

/// Two clients send a command again with another floor, one with a greater and one with a lesser one, and each is chosen in two
/// slots. It acts once, and has the same answer again. The greater floor stays told, so that the client's earlier number does
/// not act any more, and has no answer.
pub fn repeat_tells_its_floor()
    ensures { RepeatTellsItsFloor }
{}

/// A client that is done with all its earlier numbers makes a request: it goes out where its number is above them, or where it
/// is one of them again; else it is stale. What comes to a role that is down is lost, and a read before any round asks no acceptor.
pub fn stale_requests()
    ensures { StaleRequests }
{}

/// Two earlier rounds have votes for two values in one slot, in grids without a common member. The next round asks both
/// grids, waits for a row of each, and proposes the value of the greater round, whichever is reported first.
pub fn greatest_round_is_proposed()
    ensures { GreatestRoundIsProposed }
{}

/// A matchmaker that recorded a round does not record a lower one. The lower one's leader gives up, and begins a round
/// above the recorded one.
pub fn lower_round_is_refused()
    ensures { LowerRoundIsRefused }
{}

/// Two of three matchmakers are enough, and a leader leads again with another grid and retires its round before. A matchmaker
/// that never heard of the new round forgets all earlier ones and has an entry of the new one.
pub fn own_entry_stays()
    ensures { OwnEntryStays }
{}

/// An acceptor's answer to a reader is late: since it was asked the round was retired, a value was chosen and the client
/// has asked again. The reader does not count it, since it is of an earlier turn, and the read sees the value.
pub fn old_answer_is_not_counted()
    ensures { OldAnswerIsNotCounted }
{}

/// What f + 1 replicas hold is never lost: the leader, the proxy leader and the acceptor forget such a slot, and the next
/// round begins after it. A replica that missed a value gets it from another one.
pub fn held_slots_are_forgotten()
    ensures { HeldSlotsAreForgotten }
{}

/// A replica is ordered to send another one the values that it keeps of 32 slots: the greatest first, none that it has
/// forgotten. The other one keeps them in one record.
pub fn replica_offers_values()
    ensures { ReplicaOffersValues }
{}

/// A replica keeps a value that comes before its turn until its turn, and a read waits for all slots that were voted at.
/// One replica for each slot sends the answers, and each client gets its own.
pub fn values_in_slot_order()
    ensures { ValuesInSlotOrder }
{}

/// Two of three matchmakers are enough, and a row has two acceptors. An answer that comes twice counts once, at a leader, a
/// proxy leader and a reader, and a read waits for a row of each grid.
pub fn each_answer_counts_once()
    ensures { EachAnswerCountsOnce }
{}

/// An acceptor that has promised a later round refuses what an earlier one asks, and a matchmaker's retirement watermark does not
/// fall. A leader that gave up its round takes no batch.
pub fn late_requests_are_refused()
    ensures { LateRequestsAreRefused }
{}

/// A leader goes from round to round, and answers to its earlier rounds come late. They count in no stage of the later
/// ones.
pub fn answers_of_other_rounds()
    ensures { AnswersOfOtherRounds }
{}

/// A leader goes on with another grid while a value has no answer yet. The next round asks no acceptor and proposes the same
/// value to the new grid. The vote of the earlier round comes late and counts no more.
pub fn change_asks_nobody()
    ensures { ChangeAsksNobody }
{}

/// A leader that crashed while it went on with another grid has given up that round.
pub fn change_is_forgotten()
    ensures { ChangeIsForgotten }
{}

/// While a leader goes on with another grid it hears that its first slot is held: the next round proposes from the second one
/// on. It goes on once more, and proposes what both of its rounds before proposed there.
pub fn change_leaves_held_slots()
    ensures { ChangeLeavesHeldSlots }
{}

/// While a leader goes on with another grid a later leader has a value chosen and held, in a slot that the first one never
/// proposed at. The next round proposes nothing there, and gives a batch the slot after it.
pub fn change_jumps_over_held_slots()
    ensures { ChangeJumpsOverHeldSlots }
{}

/// A leader knew its value to be chosen, and goes on with another grid. It proposes the value again, and retires its round
/// before only when it knows the value to be chosen in the new grid too.
pub fn change_settles_anew()
    ensures { ChangeSettlesAnew }
{}

/// A leader goes on with another grid, and the matchmaker refuses: a later round is recorded. The leader gives up, and can
/// only lead anew, in a round that asks the acceptors.
pub fn refused_change()
    ensures { RefusedChange }
{}

/// With the key a replacer keeps the set that it comes to know, as the one that replaced it and as one that is told. After
/// all stopped and started it is told again, though nobody asked the first set.
pub fn set_is_kept()
    ensures { SetIsKept }
{}

/// The one matchmaker is stopped, the next is decided with its vote, and begins with what it recorded. The stopped one
/// records no round any more; the leader learns of the new one, asks it, and hears of the earlier round.
pub fn matchmakers_are_replaced()
    ensures { MatchmakersAreReplaced }
{}

/// Two roles that replace matchmakers have a next set decided among the same ones. The first role is refused, begins anew
/// and hears of two accepted sets. It asks for the one of the later ballot, which is decided already, and not for the one
/// that it was ordered.
pub fn accepted_set_is_decided()
    ensures { AcceptedSetIsDecided }
{}

/// Two matchmakers with different logs stop, one of which retired earlier rounds. The next set begins with their joined log.
/// A leader that is matching and one that is retiring ask the next set, and count its answers alone.
pub fn stopped_logs_are_joined()
    ensures { StoppedLogsAreJoined }
{}

/// A reader hears of the next set while a read waits for the matchmakers: it asks that set's members in the same turn, and
/// counts no answer of the earlier set any more.
pub fn read_asks_the_next_set()
    ensures { ReadAsksTheNextSet }
{}

/// A leader and a replica have a window of 32 slots, a matchmaker records 16 rounds, and the numbers of rounds end.
pub fn limits()
    ensures { Limits }
{}

/// A full matchmaker of a cluster with one entry a grid records a round in the place of the earlier ones with its grid, but
/// for its retirement watermark. It refuses a round with another grid. A repeat tells the round's own entry too.
pub fn one_entry_a_grid()
    ensures { OneEntryAGrid }
{}

/// Two leaders share four proxy leaders out: slots 0 to 3 of the first go to 0, 1, 0, 1, those of the second to 2, 3, 2, 3.
pub fn leaders_have_own_proxies()
    ensures { LeadersHaveOwnProxies }
{}

/// The only replica forgets its value, has the map and the answers in its place, and goes on with the next command. If it
/// crashes inside the renewal its store has the old list or the new one.
pub fn snapshot_of_one()
    ensures { SnapshotOfOne }
{}

/// A replica forgets its value only once the replica before it has told that it goes on behind it. A question for the value
/// that comes late is not answered.
pub fn snapshot_waits()
    ensures { SnapshotWaits }
{}

/// An acceptor that voted in two rounds puts its list anew, and is opened from the one record that its list then has: it refuses
/// the earlier round, and a reader is told the same mark.
pub fn acceptor_puts_its_list_anew()
    ensures { AcceptorPutsItsListAnew }
{}

/// A reader puts its list anew, has its last turn in the place of all, and goes on with the next. A renewal that is lost leaves
/// its list as it was.
pub fn reader_puts_its_list_anew()
    ensures { ReaderPutsItsListAnew }
{}
