//! Workers.

ghost use Rattle.std.specs.Prelude.{◌≡◌};

use crate::metrics::shared::account::Account;
use crate::metrics::shared::waiting::Waiting;
use std::marker::PhantomData;
use std::sync::ledger::Share;

/// What one thread records with: a list of records that wait to be made at a shared provider, and a share of its book,
/// which is how many records of this worker the provider has accepted, and the sum of their values.
///
/// Records are added to the list without the lock, and `Locked::submit` makes them under it. A worker copies a list of
/// attributes once, when it is new at its instrument, and knows it from then on. Once it knows `MOST_SERIES` lists and
/// no record waits, the next new one makes it forget them all. A worker can be handed to a thread.
///
/// A worker that is dropped takes its share along. From then on `Locked::settle` is refused.
pub struct Worker<C: Account, S: Account> {
    /// Of the provider that opened it.
    pub(crate) identity: u64,
    /// How many workers the provider opened before it.
    pub(crate) number: u32,
    pub(crate) waiting: Waiting,
    /// How many records of this worker were accepted.
    pub(crate) submitted: u64,
    pub(crate) records: Share<C>,
    pub(crate) values: Share<S>,
    ghost counted: { records.amount ≡ submitted },
    ghost one_record_part: { records.parts ≡ 1 },
    ghost one_value_part: { values.parts ≡ 1 },
}

/// A series that a worker knows, for records with values of type `T`: small plain data, of which a copy is the same
/// series. It holds no place at the provider.
///
/// Once the worker forgot its series, and at any other worker, its records are refused with `UnknownHandle`.
#[derive_where(Clone, Copy, Debug)]
pub struct WorkerSeries<T> {
    /// Of the provider.
    pub(crate) identity: u64,
    /// How many workers the provider opened before its worker.
    pub(crate) worker: u32,
    /// How often the worker had forgotten all series.
    pub(crate) emptied: u64,
    pub(crate) place: usize,
    pub(crate) of: PhantomData<T>,
}

impl<C: Account, S: Account> Drop for Worker<C, S> {
    /// A function of its own, so that no proof about who lets one go looks into it.
    fn drop(self) {
        let Worker {
            identity: _,
            number: _,
            waiting: _waiting,
            submitted: _,
            records: _records,
            values: _values,
        } = self;
    }
}

impl<C: Account, S: Account> Worker<C, S> {
    /// The worker's shares of both books. What is pending is given up.
    pub(crate) fn into_shares(self) -> (Share<C>, Share<S>)
        ensures records { (result.0.amount ≡ self.records.amount) × (result.0.parts ≡ 1) }
        ensures values { (result.1.amount ≡ self.values.amount) × (result.1.parts ≡ 1) }
    {
        let Worker {
            identity: _,
            number: _,
            waiting: _waiting,
            submitted: _,
            records,
            values,
        } = self;
        (records, values)
    }
}
