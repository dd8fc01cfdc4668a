//! A service: two threads serve requests of a shop, which are counted, timed and observed.

ghost use Rattle.std.specs.Prelude.{⊤};

use anyhow::Result;
use opentelemetry_sdk::attributes;
use opentelemetry_sdk::common::Fault;
use opentelemetry_sdk::metrics::callback::{NoCallback, Observation, ObserveU64};
use opentelemetry_sdk::metrics::instrument::SelectorView;
use opentelemetry_sdk::metrics::meter::{Counter, Kept};
use opentelemetry_sdk::metrics::provider::{Plain, Provider};
use opentelemetry_sdk::metrics::{ManualReader, Stream, Temporality};
use std::alloc::Global;
use std::sync::{Mutex, Wait};
use std::thread::{Threads, join};

/// How many requests wait.
#[derive(Drop)]
struct Waiting(Global, u64);

impl ObserveU64 for Waiting {
    ghost observes = { λ _ _ _ _. ⊤ };

    fn observe(&mut self, out: &mut Vec<Observation<u64>>) -> Result<(), Fault> {
        Ok(out.push(Observation::new(self.0, self.1))?)
    }
}

/// The provider of the service, whose threads share it.
type Shop = Provider<Plain<Waiting, NoCallback>>;

/// What is recorded of each request: that it was served, and how many milliseconds it took.
#[derive(Clone, Copy)]
struct Requests {
    served: Counter<u64>,
    took: Kept<u64>,
}

impl Requests {
    fn open(alloc: Global, shop: &mut Shop) -> Result<Requests, Fault> {
        let meter = shop.meter("shop")?;
        let waiting = meter.u64_observable_gauge(String::from_str(alloc, "waiting")?);
        waiting.with_callback(Waiting(alloc, 3))?.build(shop, 100)?;
        let served = meter.u64_counter(String::from_str(alloc, "served")?);
        let served = served.build(shop, 100)?;
        let took = meter.u64_histogram(String::from_str(alloc, "took")?);
        let took = took.build(shop, 100)?.bind(shop, &[])?.keep();
        Ok(Requests { served, took })
    }

    fn serve(&self, alloc: Global, shop: &mut Shop, path: &str) -> Result<(), Fault> {
        let attributes = attributes![in alloc; "path" => path, "paid" => true];
        self.served.add(shop, 1, &attributes)?;
        self.took.record(shop, 7)
    }
}

/// Two threads serve requests, each under the lock, and then both readers collect.
fn serve<R: Print + Threads + Wait + Sync>(rt: &R, alloc: Global, mut shop: Shop) -> Result<()> {
    let requests = Requests::open(alloc, &mut shop)?;
    let shop = Mutex::new(shop);
    let (first, second) = join(
        rt,
        || requests.serve(alloc, &mut shop.lock(rt), "/cart"),
        || requests.serve(alloc, &mut shop.lock(rt), "/cart"),
    );
    let mut shop = shop.into_inner();
    first.and(second)?;
    Ok(print!(rt; "{}{}", shop.collected(0, 200)?, shop.collected(1, 200)?)?)
}

/// The service, with a reader of all that was counted so far and one of what is new.
pub fn with_service<R: Print + Threads + Wait + Sync>(rt: &R, alloc: Global) -> Result<()> {
    let few = Stream::builder().with_cardinality_limit(50).build()?;
    let delta = ManualReader::builder().with_temporality(Temporality::Delta);
    let shop = Provider::builder(alloc)
        .with_view(SelectorView::of_name(alloc, "served", few)?)?
        .with_reader(ManualReader::default())?
        .with_reader(delta.build())?
        .build()?;
    serve(rt, alloc, shop)
}
