//! How the faults of a header are worded. Which fault a header has, the contract of `read` says.

use cx_cluster::{ClusterFault, ClusterKey, UnknownKey};
use std::alloc::Global;
use std::test::Fail;

const FAULTS: [(ClusterFault, &str); 5] = [
    (ClusterFault::Toml, "not TOML"),
    (ClusterFault::Missing(ClusterKey::F), "missing key f"),
    (
        ClusterFault::NotNumber(ClusterKey::BasePort),
        "base_port is not a number",
    ),
    (
        ClusterFault::Range(ClusterKey::F, -1),
        "f = -1 is out of range",
    ),
    (ClusterFault::NoMemory, "no memory"),
];

fn is_worded(alloc: Global, fault: &ClusterFault, words: &str) -> Result<bool, Fail> {
    Ok(format!(in alloc; "{fault}")?.as_str() == words)
}

#[test]
fn faults_are_worded(rt: HostRuntime) -> Result<(), Fail> {
    let alloc = rt.alloc();
    for (fault, words) in &FAULTS {
        assert!(rt; is_worded(alloc, fault, words)?);
    }
    let key = UnknownKey::from_text(String::from_str(alloc, "x")?);
    assert!(rt; is_worded(alloc, &ClusterFault::Unknown(key), "unknown key x")?);
    Ok(())
}
