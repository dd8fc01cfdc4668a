//! The ledgers of a shared provider, and where they end.

ghost use Rattle.std.specs.Prelude.{◌≡◌, ◌≢◌, ℕ, IfErr, OnOk};

use otel_common::faults::Fault;
use std::marker::Brand;
use std::sync::ledger::Ledger;

/// How many records the book of one shared provider takes.
const MOST_RECORDS: u64 = u64::MAX;

/// How many workers can be opened at one shared provider, and so the number of parts of its two ledgers.
pub const MOST_WORKERS: u64 = 4294967295;

/// A ledger of what the workers of one shared provider record: how many records, or the sum of their values.
///
/// It stands for one provider, so the type of a worker says at which provider it was opened. A program is generic over
/// its ledgers, and has `Brand` for them in its outermost call.
pub trait Account: Ledger {
    /// What all instruments of the provider had accepted before it was shared, modulo 2^64.
    ghost before: { ℕ };
}

impl Account for Brand {
    ghost before = { 0 };
}

/// Checks that a book takes one record more than the number that it has. Refused with `LedgerFull` if it has 2^64 - 1.
pub fn check_book(accepted: u64) -> Result<(), Fault>
    ensures room { OnOk result (accepted ≢ 18446744073709551615) }
    ensures full { IfErr result (λ f. (f ≡ Fault.LedgerFull) × (accepted ≡ 18446744073709551615)) }
{
    if accepted == MOST_RECORDS {
        return Err(Fault::LedgerFull);
    }
    Ok(())
}

/// Checks that one worker more than this number can be opened. Refused with `Exhausted` if 2^32 - 1 were opened.
pub fn check_workers(opened: u32) -> Result<(), Fault>
    ensures room { OnOk result (opened ≢ 4294967295) }
    ensures full { IfErr result (λ f. (f ≡ Fault.Exhausted) × (opened ≡ 4294967295)) }
{
    if opened == u32::MAX {
        return Err(Fault::Exhausted);
    }
    Ok(())
}
