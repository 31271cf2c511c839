//! The limits: of slots, of a cluster, of requests, of bytes, and of the input. Each is here once, with its reason.
//!
//! What only paces a loop or sizes a buffer, and changes no answer, is a constant of the file that uses it.

// Slots.

/// The window, in slots. A leader proposes at slots below its chosen watermark plus this, an acceptor holds votes of no
/// others, and a replica holds back no value that is further ahead. So what they hold is bounded, and the votes of a whole
/// window fit one datagram.
pub const WINDOW: u64 = 32;

/// The window, as the length of a list with a value for each of its slots.
pub const WINDOW_LENGTH: usize = WINDOW as usize;

/// Slots are the numbers below this. Sums of slots then fit a `u64` without a test.
pub const SLOTS: u64 = 1 << 40;

// A cluster.

/// The greatest f. A cluster outlives the loss of f of a set of 2f + 1 matchmakers, and of f of 2f + 1 replicas; of acceptors
/// it needs a whole row and a whole column of a grid, whatever f is. A set of matchmakers has at most 7.
pub const MAX_F: u16 = 3;

/// The most members of a set of matchmakers, which are 2f + 1, so that a set is a value that is copied.
pub const SET_LENGTH: usize = 7;

/// The most matchmakers of a cluster, in all of its sets: enough for nine sets of the greatest length.
pub const MATCHMAKERS: u16 = 64;

/// The most replacers of a cluster. One is enough for replacing; the others are for when it is lost.
pub const REPLACERS: u16 = 4;

/// The most leaders, replicas, batchers, unbatchers and readers of a cluster, of each kind. What is sent to all of a kind
/// then takes a few of the sends of a step.
pub const ROLES: u16 = 8;

/// The most proxy leaders of a cluster: more than leaders, since they do the most work for each slot.
pub const PROXIES: u16 = 16;

/// The most acceptors of a cluster: enough for four grids of the most members that have none in common.
pub const ACCEPTORS: u16 = 64;

/// The most clients of a cluster. What is held by client is an array of this length.
pub const CLIENTS: usize = 64;

/// The ids that a set of senders can hold are the numbers below this: no kind has more roles.
pub const IDS: usize = 64;

/// The most members of a grid, so that a grid is a value that is copied.
pub const MEMBERS: usize = 16;

/// A matchmaker that has this many rounds refuses a further one until some are retired. This bounds its answers, each of which
/// has all of them.
pub const ROUNDS: usize = 16;

/// The most rounds with which a matchmaker begins as a member of a set: what the members of the set before had, joined. A
/// replacer that would need more gives up.
pub const JOINED: usize = 254;

/// The most rounds in a message: those with which a matchmaker began, and the one for which it forgot earlier ones.
pub const ENTRIES: usize = 255;

// Requests.

/// The most numbers that a client has outstanding: a floor is at most this far below the number that tells it. So the answers
/// that are held for a client are bounded.
pub const OUTSTANDING: u64 = 64;

/// The most numbers that are noted of a client, as the length of a list.
pub const NOTES: usize = OUTSTANDING as usize;

/// The most commands of a batch, which is the value of one slot: the values of a whole window fit one datagram.
pub const BATCH: usize = 8;

/// The most reads that a reader has in progress, and the most reads and session reads that a replica defers until it holds the
/// slots. A further one is refused, so what they hold is bounded.
pub const READS: usize = 64;

/// The most bytes of a key, so that keys are copied and take no memory.
pub const KEY_LENGTH: usize = 32;

/// The most bytes of a text, so that texts are copied too.
pub const TEXT_LENGTH: usize = 64;

// Bytes and datagrams.

/// The most bytes of a datagram. UDP carries one of this length.
pub const MAX_DATAGRAM_LENGTH: usize = 32_768;

/// The most bytes of a record in a journal, where a greater length is damage.
pub const MAX_RECORD_LENGTH: usize = 32_768;

/// The most pairs of a replica's map in one record: their count is one byte, and they fit a record.
pub const PAIRS: usize = 255;

/// A replica whose map has this many keys or more makes no snapshot, which counts them in four bytes.
pub const KEYS: u64 = 1 << 32;

/// The most datagrams that a step sends: one for each slot of the window to each member of a grid.
pub const MAX_SENDS: usize = 512;

// The input.

/// The most bytes of a line, without its line feed and carriage return: several times what an event needs.
pub const MAX_LINE_LENGTH: usize = 1024;

/// The most bytes of a header, each line with its line feed: its keys need a few hundred, the rest is for comments.
pub const MAX_HEADER_LENGTH: usize = 16384;

/// The most lines after the header.
pub const MAX_LINES: u64 = 65535;
