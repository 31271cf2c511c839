//! A hosted role, with the keeper of its records.

use cx_acceptor::Acceptor;
use cx_batch::{Batcher, Unbatcher};
use cx_client::Client;
use cx_leader::Leader;
use cx_match::Matchmaker;
use cx_proxy::Proxy;
use cx_reader::Reader;
use cx_replace::Replacer;
use cx_replica::Replica;

/// A role that a node hosts, by its kind. Those whose records outlive a stop have a keeper.
#[derive(Drop)]
pub enum Guest<K> {
    Client { role: Client },
    Batcher { role: Batcher },
    Leader { role: Leader, keeper: K },
    Proxy { role: Proxy },
    Acceptor { role: Acceptor, keeper: K },
    Matchmaker { role: Matchmaker, keeper: K },
    Replica { role: Replica, keeper: K },
    Unbatcher { role: Unbatcher },
    Reader { role: Reader, keeper: K },
    Replacer { role: Replacer, keeper: K },
}
