//! The reason why a port failed.

use std::{fmt, io};

/// The reason why a port failed.
#[derive(Debug, Drop)]
pub enum PortFault {
    /// A read returned no byte within the time that was set with `stty`.
    Silent,
    System(io::Error),
}

impl fmt::Display for PortFault {
    fn fmt<W: fmt::Write>(&self, f: &mut fmt::Formatter<W>) -> fmt::Result {
        match self {
            PortFault::Silent => f.write_str("no byte arrived"),
            PortFault::System(error) => write!(f, "{error}"),
        }
    }
}
