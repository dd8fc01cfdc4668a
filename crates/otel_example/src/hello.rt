//! A shop counts its requests, and collects twice.

use anyhow::Error;
use opentelemetry_sdk::common::KeyValue;
use opentelemetry_sdk::metrics::provider::{Parts, Provider};
use opentelemetry_sdk::metrics::{ManualReader, SdkMeterProvider};
use std::alloc::Global;

fn serve<P: Parts>(rt: &impl Print, alloc: Global, shop: &mut Provider<P>) -> Result<(), Error> {
    let name = String::from_str(alloc, "requests")?;
    let requests = shop.meter("shop")?.u64_counter(name).build(shop, 100)?;
    let cart = [KeyValue::text(alloc, "path", "/cart")?];
    requests.add(shop, 3, &cart)?;
    print!(rt; "{}", shop.collected(0, 200)?)?;
    requests.add(shop, 4, &cart)?;
    print!(rt; "{}", shop.collected(0, 300)?)?;
    Ok(())
}

/// A program whose `main` calls this is whole.
pub fn hello(rt: &impl Print, alloc: Global) -> Result<(), Error> {
    let reader = Box::new(alloc, ManualReader::default())?;
    let mut shop = SdkMeterProvider::builder(alloc)
        .with_reader(reader)?
        .build()?;
    serve(rt, alloc, &mut shop)
}
