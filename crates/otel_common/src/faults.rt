//! Why calls are refused.

ghost use Rattle.std.specs.Prelude.{◌≡◌};
ghost use Rattle.otel_common.specs.Faults.{number_of};
ghost use Rattle.otel_common.specs.declared.faults.Fault.TheVariants.{OutOfMemory};

use std::alloc::{AllocError, AllocFailed};
use std::error::Error;
use std::fmt::{self, Display, Formatter, Write};

/// The answer to a flush or a shutdown: done, or why it was refused.
pub type OTelSdkResult = Result<(), Fault>;

/// Why a call was refused.
///
/// A refused call changes nothing, with two exceptions. In a flush or a shutdown in which readers failed, every reader
/// was asked, and the shutdown has shut the provider down. In a refused collection, the callbacks that ran keep the
/// changes that they made to themselves.
#[derive(Clone, Copy, Debug, PartialEq)]
pub enum Fault {
    /// There was no memory for the call.
    OutOfMemory,
    /// No meter of the provider has this number, or the meter belongs to a provider with another identity.
    UnknownMeter,
    /// No instrument of the provider has this number, or the instrument belongs to a provider with another identity.
    UnknownInstrument,
    /// No live handle of the provider has this number, or the handle belongs to a provider with another identity.
    UnknownHandle,
    /// No reader of the provider has this number.
    UnknownReader,
    /// A `u64` for an `i64` instrument, or the other way round; or a `u64` past 2^63 - 1 for an attribute.
    WrongNumber,
    /// The instrument is of the wrong kind: a record or a bind on an observable one, or an observation of one that
    /// isn't observable.
    WrongKind,
    /// A flush or a shutdown of a provider that was already shut down (Metrics SDK, "Shutdown").
    AlreadyShutdown,
    /// No number is left: 2^64 - 1 handles were bound, at a provider or at one entry of a map, or 2^32 - 1 workers of a
    /// shared provider were opened.
    Exhausted,
    /// No further record can be entered in the book of a shared provider: 2^64 - 1 records of workers were accepted.
    LedgerFull,
    /// A record was handed to a shared provider itself. Only its workers may hand in records.
    UseWorker,
    /// The workers handed back to a shared provider are not all that were opened at it.
    WorkersMissing,
    /// A reader could not do what it was asked.
    InternalFailure(InternalFault),
}

/// What readers failed to do.
#[derive(Clone, Copy, Debug, PartialEq, thiserror::Error)]
pub enum InternalFault {
    /// A collection from a provider that was already shut down.
    #[error("reader is shut down or not registered")]
    ReaderShutDown,
    /// Readers failed in a flush or a shutdown: how many did, and the number of the first of them.
    #[error("{failed} readers failed, the first is {first}")]
    Readers { failed: usize, first: usize },
}

impl Fault {
    /// Returns the number of the fault, which stays the same from version to version.
    pub fn number(&self) -> u8
        ensures { result ≡ number_of self.now }
    {
        match self {
            Fault::OutOfMemory => 1,
            Fault::UnknownMeter => 2,
            Fault::UnknownInstrument => 3,
            Fault::UnknownHandle => 4,
            Fault::UnknownReader => 5,
            Fault::WrongNumber => 6,
            Fault::WrongKind => 7,
            Fault::AlreadyShutdown => 8,
            Fault::InternalFailure(InternalFault::ReaderShutDown) => 9,
            Fault::InternalFailure(InternalFault::Readers { .. }) => 10,
            Fault::Exhausted => 11,
            Fault::LedgerFull => 12,
            Fault::UseWorker => 13,
            Fault::WorkersMissing => 14,
        }
    }
}

impl From<AllocError> for Fault {
    ghost from_gives = { λ _ fault. fault ≡ OutOfMemory };

    fn from(_error: AllocError) -> Fault {
        Fault::OutOfMemory
    }
}

impl<T: Drop> From<AllocFailed<T>> for Fault {
    ghost from_gives = { λ _ fault. fault ≡ OutOfMemory };

    fn from(_failed: AllocFailed<T>) -> Fault {
        Fault::OutOfMemory
    }
}

/// Prints the reason, in words.
impl Display for Fault {
    fn fmt<W: Write>(&self, f: &mut Formatter<W>) -> fmt::Result {
        f.write_str(match self {
            Fault::OutOfMemory => "out of memory",
            Fault::UnknownMeter => "unknown meter",
            Fault::UnknownInstrument => "unknown instrument",
            Fault::UnknownHandle => "unknown handle",
            Fault::UnknownReader => "unknown reader",
            Fault::WrongNumber => "wrong number type",
            Fault::WrongKind => "wrong instrument kind",
            Fault::AlreadyShutdown => "already shut down",
            Fault::Exhausted => "exhausted",
            Fault::LedgerFull => "ledger full",
            Fault::UseWorker => "use a worker",
            Fault::WorkersMissing => "workers missing",
            Fault::InternalFailure(failure) => return write!(f, "{failure}"),
        })
    }
}

impl Error for Fault {}
