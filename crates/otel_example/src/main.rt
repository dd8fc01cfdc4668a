//! A shop counts its requests: how a program uses the library.
#![tactic(auto)]

mod balances;
mod calls;
mod counted;
mod export;
mod first;
mod hello;
mod listed;
mod own;
mod owned;
mod parts;
mod service;
mod shop;
mod stand;
mod views;
mod workers;

use anyhow::Error;
use balances::count_any;
use calls::{counter, print_collection};
use counted::count_batch;
use export::with_exports;
use first::first_program;
use hello::hello;
use listed::with_list;
use opentelemetry_sdk::metrics::callback::ObserveU64;
use opentelemetry_sdk::metrics::provider::{Boxed, Parts, Provider};
use opentelemetry_sdk::metrics::reader::MetricReader;
use opentelemetry_sdk::metrics::{ManualReader, Temporality};
use own::Waiting;
use owned::with_own;
use parts::{OnlyManual, provider_with};
use service::with_service;
use shop::Shop;
use stand::with_views;
use std::alloc::Global;
use workers::in_threads;

/// A shop serves requests of these paths on two days, and prints on each what was counted.
fn two_days<P: Parts>(
    rt: &impl Print,
    alloc: Global,
    reader: P::Reader,
    first: &[&str],
    second: &[&str],
) -> Result<(), Error> {
    let mut shop = Shop::open(
        alloc,
        provider_with::<P>(alloc, reader, Vec::new(alloc))?,
        100,
    )?;
    shop.serve(rt, alloc, first, 200)?;
    shop.serve(rt, alloc, second, 300)
}

/// Readers and callbacks in boxes, which may differ in type.
fn with_boxes(rt: &impl Print, alloc: Global) -> Result<(), Error> {
    let waiting: Box<dyn ObserveU64> = Box::new(alloc, Waiting { alloc, requests: 3 })?;
    let reader: Box<dyn MetricReader> = Box::new(alloc, ManualReader::default())?;
    first_program::<Boxed>(rt, alloc, reader, waiting)
}

/// Readers of one type, without boxes: one that gives all that was counted so far, and one that gives what is new.
fn without_boxes(rt: &impl Print, alloc: Global) -> Result<(), Error> {
    let all = ManualReader::default();
    two_days::<OnlyManual>(rt, alloc, all, &["/cart", "/cart", "/"], &["/cart"])?;
    let new = ManualReader::builder().with_temporality(Temporality::Delta);
    two_days::<OnlyManual>(rt, alloc, new.build(), &["/cart"], &["/cart", "/cart"])
}

/// Makes a counter, counts two batches of requests and an empty one, and prints how many requests there were.
fn count_two<P: Parts>(
    rt: &impl Print,
    alloc: Global,
    provider: &mut Provider<P>,
) -> Result<(), Error> {
    let requests = counter(alloc, provider, "shop", "requests", 100)?;
    count_batch(provider, requests, 40, &[])?;
    count_batch(provider, requests, 2, &[])?;
    count_any(provider, requests, 0)?;
    print_collection(rt, provider, 200)
}

/// Requests that are counted by the batch.
fn in_batches<P: Parts>(rt: &impl Print, alloc: Global, reader: P::Reader) -> Result<(), Error> {
    let mut provider = provider_with::<P>(alloc, reader, Vec::new(alloc))?;
    count_two(rt, alloc, &mut provider)
}

fn main(rt: HostRuntime) -> Result<(), Error> {
    hello(&rt, rt.alloc())?;
    with_boxes(&rt, rt.alloc())?;
    without_boxes(&rt, rt.alloc())?;
    with_views(&rt, rt.alloc())?;
    in_batches::<OnlyManual>(&rt, rt.alloc(), ManualReader::default())?;
    with_list::<OnlyManual>(&rt, rt.alloc(), ManualReader::default())?;
    with_own(&rt, rt.alloc())?;
    in_threads::<OnlyManual, HostRuntime>(&rt, rt.alloc(), ManualReader::default())?;
    with_service(&rt, rt.alloc())?;
    with_exports(&rt, &rt, rt.alloc())
}
