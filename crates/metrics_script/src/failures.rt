//! Why a script ends early.

ghost use Rattle.std.specs.Prelude.{◌≡◌};
ghost use Rattle.metrics_script.specs.Failures.{status_of};
ghost use Rattle.metrics_script.specs.declared.failures.Failure.TheVariants.{OutOfMemory};

use opentelemetry_sdk::common::Fault;
use std::alloc::{AllocError, AllocFailed};
use thiserror::Error;

/// How the program is used.
pub const USAGE: &str =
    "usage: metrics_run [--help | explain | (prometheus | openmetrics | otlp) [last]], with the script on standard input";

/// Why a script ends early. Its text goes to standard error.
#[derive(Debug, Drop, Error)]
pub enum Failure {
    /// The number of the first bad line, from 1.
    #[error("line {0}: bad command")]
    BadLine(u64),
    /// There was no memory for something other than a call's reply.
    #[error("out of memory")]
    OutOfMemory,
    /// A read or a write failed.
    #[error("input or output failed")]
    InputOrOutput,
    /// The arguments ask for nothing that the program does.
    #[error("{usage}", usage = USAGE)]
    BadArguments,
}

impl Failure {
    /// Returns the status that the script ends with.
    pub fn status(&self) -> u8
        ensures { result ≡ status_of self.now }
    {
        match self {
            Failure::BadLine(_) => 2,
            Failure::OutOfMemory => 3,
            Failure::InputOrOutput => 4,
            Failure::BadArguments => 2,
        }
    }
}

impl From<AllocError> for Failure {
    ghost from_gives = { λ _ failure. failure ≡ OutOfMemory };

    fn from(_error: AllocError) -> Failure {
        Failure::OutOfMemory
    }
}

impl<T: Drop> From<AllocFailed<T>> for Failure {
    ghost from_gives = { λ _ failure. failure ≡ OutOfMemory };

    fn from(_failed: AllocFailed<T>) -> Failure {
        Failure::OutOfMemory
    }
}

/// Only for calls that are refused for want of memory alone: the making of a provider and a run.
impl From<Fault> for Failure {
    ghost from_gives = { λ _ failure. failure ≡ OutOfMemory };

    fn from(_fault: Fault) -> Failure {
        Failure::OutOfMemory
    }
}
