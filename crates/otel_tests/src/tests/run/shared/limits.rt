//! What every shared provider answers at the limits of its book and of its workers, which no run reaches. The clauses
//! say it, of each state there.

ghost use Rattle.std.specs.Prelude.{◌≡◌, [], true, Err, is_ok, length};
ghost use Rattle.opentelemetry_sdk.specs.Shared.{records_in, workers_in};
ghost use Rattle.opentelemetry_sdk.specs.Workers.{pending_of};

use opentelemetry_sdk::metrics::provider::Parts;
use opentelemetry_sdk::metrics::shared::{Account, Locked, Receipt, Worker};
use otel_common::faults::Fault;

/// A submission of nothing is answered, also at a full book.
pub fn submit_nothing<P: Parts, C: Account, S: Account>(
    locked: &mut Locked<P, C, S>,
    worker: &mut Worker<C, S>,
) -> Result<Receipt, Fault>
    requires { pending_of worker.now ≡ [] }
    ensures { is_ok result ≡ true }
{
    locked.submit(worker)
}

/// One of a record at a full book is refused with `LedgerFull`, and the record stays in the worker's list.
pub fn submit_to_a_full_book<P: Parts, C: Account, S: Account>(
    locked: &mut Locked<P, C, S>,
    worker: &mut Worker<C, S>,
) -> Result<Receipt, Fault>
    requires full { records_in locked.now ≡ 18446744073709551615 }
    requires one { length (pending_of worker.now) ≡ 1 }
    ensures refused { result ≡ Err Fault.LedgerFull }
    ensures left { length (pending_of worker.new) ≡ 1 }
{
    locked.submit(worker)
}

/// No worker is opened after the last: that is refused with `Exhausted`.
pub fn after_all_workers<P: Parts, C: Account, S: Account>(
    locked: &mut Locked<P, C, S>,
) -> Result<Worker<C, S>, Fault>
    requires { workers_in locked.now ≡ 4294967295 }
    ensures { result ≡ Err Fault.Exhausted }
{
    locked.open_worker()
}
