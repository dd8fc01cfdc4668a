//! Why exports fail.

ghost use Rattle.std.specs.Prelude.{◌≡◌};

use std::alloc::AllocError;
use std::io;
use thiserror::Error;

/// Why something wasn't written.
#[derive(Clone, Copy, Debug, Error)]
pub enum WriteFault {
    /// There was no memory, and nothing was written.
    #[error("out of memory")]
    OutOfMemory,
    /// The writer failed. A part may be written.
    #[error("{0}")]
    Failed(io::Error),
}

impl From<io::Error> for WriteFault {
    ghost use Rattle.otel_export.specs.declared.faults.WriteFault.TheVariants as made;

    ghost from_gives = { λ error fault. fault ≡ made.Failed error };

    fn from(error: io::Error) -> WriteFault {
        WriteFault::Failed(error)
    }
}

impl From<AllocError> for WriteFault {
    ghost use Rattle.otel_export.specs.declared.faults.WriteFault.TheVariants as made;

    ghost from_gives = { λ _ fault. fault ≡ made.OutOfMemory };

    fn from(_error: AllocError) -> WriteFault {
        WriteFault::OutOfMemory
    }
}
