//! A log that is copied.

use cx_base::{Duplicate, Value};
use cx_rlog::Log;
use std::test::Fail;

#[test]
fn a_copied_log_holds_the_same(rt: HostRuntime) -> Result<(), Fail> {
    let alloc = rt.alloc();
    let mut log = Log::new(alloc)?;
    log.restore(alloc, &[Value::Noop])?;
    assert_eq!(rt; log.copy(alloc)?.held(), 1);
    Ok(())
}
