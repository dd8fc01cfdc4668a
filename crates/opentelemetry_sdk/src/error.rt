//! One error for functions that make streams, call a provider and export what it collects.

ghost use Rattle.std.specs.Prelude.{◌≡◌};

use otel_common::faults::Fault;
use otel_export::faults::WriteFault;
use otel_stream::stream_fault::StreamFault;
use std::alloc::{AllocError, AllocFailed};
use thiserror::Error;

/// Why a call or the settings of a stream are refused, or an export failed. `?` makes it of each error.
#[derive(Clone, Debug, Drop, Error)]
pub enum SdkError {
    /// A call is refused.
    #[error("{0}")]
    Call(Fault),
    /// The settings of a stream are refused.
    #[error("{0}")]
    Stream(StreamFault),
    /// Something wasn't written.
    #[error("{0}")]
    Write(WriteFault),
}

impl From<Fault> for SdkError {
    ghost use Rattle.opentelemetry_sdk.specs.declared.error.SdkError.TheVariants as made;

    ghost from_gives = { λ fault error. error ≡ made.Call fault };

    fn from(fault: Fault) -> SdkError {
        SdkError::Call(fault)
    }
}

impl From<StreamFault> for SdkError {
    ghost use Rattle.opentelemetry_sdk.specs.declared.error.SdkError.TheVariants as made;

    ghost from_gives = { λ fault error. error ≡ made.Stream fault };

    fn from(fault: StreamFault) -> SdkError {
        SdkError::Stream(fault)
    }
}

impl From<WriteFault> for SdkError {
    ghost use Rattle.opentelemetry_sdk.specs.declared.error.SdkError.TheVariants as made;

    ghost from_gives = { λ fault error. error ≡ made.Write fault };

    fn from(fault: WriteFault) -> SdkError {
        SdkError::Write(fault)
    }
}

impl From<AllocError> for SdkError {
    ghost use Rattle.opentelemetry_sdk.specs.declared.error.SdkError.TheVariants as made;
    ghost use Rattle.otel_common.specs.declared.faults.Fault.TheVariants.{OutOfMemory};

    ghost from_gives = { λ _ error. error ≡ made.Call OutOfMemory };

    fn from(_error: AllocError) -> SdkError {
        SdkError::Call(Fault::OutOfMemory)
    }
}

impl<T: Drop> From<AllocFailed<T>> for SdkError {
    ghost use Rattle.opentelemetry_sdk.specs.declared.error.SdkError.TheVariants as made;
    ghost use Rattle.otel_common.specs.declared.faults.Fault.TheVariants.{OutOfMemory};

    ghost from_gives = { λ _ error. error ≡ made.Call OutOfMemory };

    fn from(_failed: AllocFailed<T>) -> SdkError {
        SdkError::Call(Fault::OutOfMemory)
    }
}
