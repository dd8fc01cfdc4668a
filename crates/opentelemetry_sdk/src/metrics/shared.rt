//! A provider that threads share: its core and a book under one lock, and workers that hand in lists of records.
//!
//! The threads and the lock are the caller's. No function here starts a thread, takes the lock or waits.

pub mod account;
mod adding;
mod batch;
mod booked;
mod groups;
mod locked;
mod pending;
mod series;
mod waiting;
mod worker;

pub use account::{Account, MOST_WORKERS};
pub use booked::Receipt;
pub use locked::{Locked, SharedMeterProvider, SharedProvider};
pub use pending::PendingRecord;
pub use waiting::MOST_SERIES;
pub use worker::{Worker, WorkerSeries};
