//! What a node says to whoever watches it while its client is told nothing.

use crate::hosting::{HEADER, ROLES, empty_depot, link, with_header};
use cx_edge::{MemSink, MemSource, RemarkingSink};
use cx_node::serve;
use std::alloc::Global;
use std::test::Fail;

const PUT: &str = "write client:0 7 batcher:0 put a 1\n";

// Turns from beat to beat at most. A node of a client alone has a beat at each turn that this divides.
const TEND: u32 = 64;

const REMARK: &str =
    "client:0: nothing was answered to number 7 for 64 beats: its number may not be above all that this client used before, or a role is down\n";

// What is said while a client that no other role serves makes so many turns. It prints nothing.
fn remarked(alloc: Global, tend: Option<u32>, turns: u32) -> Result<Vec<u8>, Fail> {
    let mut input = MemSource::new(with_header(alloc, HEADER, PUT)?, Vec::new(alloc));
    let mut link = link(alloc, &[])?;
    let mut depot = empty_depot(alloc)?;
    let printed = MemSink::new(alloc, 0, Vec::new(alloc))?;
    let mut out = RemarkingSink::new(printed, Vec::new(alloc));
    let status = serve(
        alloc,
        &ROLES[..1],
        turns,
        tend,
        1,
        false,
        &mut input,
        &mut link,
        &mut depot,
        &mut out,
    );
    if status.exit() != 8 {
        return Err("the client was answered".into());
    }
    Ok(out.remarks().as_slice().to_vec(alloc)?)
}

#[test]
fn a_client_that_is_told_nothing_says_so_once(rt: HostRuntime) -> Result<(), Fail> {
    let alloc = rt.alloc();
    assert!(rt; remarked(alloc, Some(TEND), 64 * TEND - 1)?.is_empty());
    assert!(rt; remarked(alloc, Some(TEND), 64 * TEND)?.as_slice() == REMARK.as_bytes());
    assert!(rt; remarked(alloc, Some(TEND), 70 * TEND)?.as_slice() == REMARK.as_bytes());
    assert!(rt; remarked(alloc, None, 70 * TEND)?.is_empty());
    Ok(())
}
