//! The outside: sources and sinks of bytes, links over UDP, stores in files, each also in memory.
//!
//! All that a program reads, writes, sends and stores goes through it; real sockets and files are
//! only tested. Its theorems are: a call fails only where its count of failures rises, which nothing
//! else raises; what was read, written, sent (until a link lacks room) and stored is known exactly,
//! except of sockets and files; `Lines` gives each line of a source.
#![tactic(auto)]

mod adapters;
mod counted_disk;
mod depot;
mod desk;
mod file_depot;
mod file_disk;
mod in_pieces;
mod lines;
mod link;
mod mem_depot;
mod mem_link;
mod memory;
mod notes;
mod pieces;
mod remark;
mod rows;
mod shelf;
mod sink;
mod slot;
mod slots;
mod source;
mod trouble;
mod udp_link;

pub use adapters::{ReaderSource, RemarkingSink, WriterSink};
pub use counted_disk::CountedDisk;
pub use depot::Depot;
pub use file_depot::FileDepot;
pub use file_disk::FileDisk;
pub use in_pieces::InPieces;
pub use lines::{Lines, Next};
pub use link::{Link, TakeEnd};
pub use mem_depot::MemDepot;
pub use mem_link::{LinkFailing, MemLink};
pub use memory::{MemSink, MemSource};
pub use notes::{Front, LinkRoom};
pub use remark::Remark;
pub use shelf::Shelf;
pub use sink::{Sink, WriteEnd, write_all};
pub use source::{ReadAll, ReadEnd, Source, read_all};
pub use trouble::Trouble;
pub use udp_link::UdpLink;
