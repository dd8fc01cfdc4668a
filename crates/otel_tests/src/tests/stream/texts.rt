//! The texts and numbers of faults and errors.

use super::assert_prints;
use otel_common::faults::{Fault, InternalFault};
use otel_common::metrics::MetricError;

/// Faults, their numbers and their texts.
const FAULTS: &[(Fault, &str)] = &[
    (Fault::OutOfMemory, "1 out of memory"),
    (Fault::UnknownMeter, "2 unknown meter"),
    (Fault::UnknownInstrument, "3 unknown instrument"),
    (Fault::UnknownHandle, "4 unknown handle"),
    (Fault::UnknownReader, "5 unknown reader"),
    (Fault::WrongNumber, "6 wrong number type"),
    (Fault::WrongKind, "7 wrong instrument kind"),
    (Fault::AlreadyShutdown, "8 already shut down"),
    (
        Fault::InternalFailure(InternalFault::ReaderShutDown),
        "9 reader is shut down or not registered",
    ),
    (
        Fault::InternalFailure(InternalFault::Readers {
            failed: 2,
            first: 10,
        }),
        "10 2 readers failed, the first is 10",
    ),
    (Fault::Exhausted, "11 exhausted"),
    (Fault::LedgerFull, "12 ledger full"),
    (Fault::UseWorker, "13 use a worker"),
    (Fault::WorkersMissing, "14 workers missing"),
];

const ERRORS: &[(MetricError, &str)] = &[
    (MetricError::Other("text"), "Metrics error: text"),
    (MetricError::Config("text"), "Config error text"),
    (
        MetricError::InvalidInstrumentConfiguration("text"),
        "Invalid instrument configuration: text",
    ),
];

const INTERNAL: &[(InternalFault, &str)] = &[
    (
        InternalFault::ReaderShutDown,
        "reader is shut down or not registered",
    ),
    (
        InternalFault::Readers {
            failed: 3,
            first: 0,
        },
        "3 readers failed, the first is 0",
    ),
];

#[test]
fn faults_and_errors(rt: HostRuntime) {
    let alloc = rt.alloc();
    for (fault, text) in INTERNAL {
        assert_prints(&rt, alloc, fault, text);
    }
    for (fault, text) in FAULTS {
        let number = fault.number();
        assert_prints(&rt, alloc, &format_args!("{number} {fault}"), text);
    }
    for (error, text) in ERRORS {
        assert_prints(&rt, alloc, error, text);
    }
}
