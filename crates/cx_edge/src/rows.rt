//! A role and how often it was failed.

use cx_base::RoleId;

#[derive(Clone, Copy)]
pub(crate) struct CountRow {
    pub(crate) role: RoleId,
    pub(crate) count: u64,
}
