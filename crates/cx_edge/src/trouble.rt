//! What the system said where a socket or a file failed.

use std::{fmt, io};

/// Where a call failed, and the system's own words. It is told to whoever runs the program, and nothing else depends on it.
#[derive(Clone, Copy)]
pub enum Trouble<'a> {
    /// A socket at this port.
    Port { port: u16, error: io::Error },
    /// The file of this name.
    File { name: &'a str, error: io::Error },
}

impl fmt::Display for Trouble<'_> {
    fn fmt<W: fmt::Write>(&self, f: &mut fmt::Formatter<W>) -> fmt::Result {
        match self {
            Trouble::Port { port, error } => write!(f, "port {port}: {error}"),
            Trouble::File { name, error } => write!(f, "{name}: {error}"),
        }
    }
}
