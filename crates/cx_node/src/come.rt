//! What a take of a link gave.

use cx_letter::Datagram;

/// Nothing was there; or bytes that bring no datagram; or one, with its number among those that the node sent, where it
/// records, else 0.
#[derive(Drop)]
pub enum Come {
    Nothing,
    Foreign,
    Letter { number: u64, datagram: Datagram },
}
