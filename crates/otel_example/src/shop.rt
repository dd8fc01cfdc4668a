//! A shop that keeps a provider and counts at it.

use crate::calls::{counter, print_collection};
use anyhow::Error;
use opentelemetry_sdk::common::{Fault, KeyValue};
use opentelemetry_sdk::metrics::meter::Counter;
use opentelemetry_sdk::metrics::provider::{Parts, Provider};
use std::alloc::Global;

/// A shop, and the counter of its requests.
#[derive(Drop)]
pub struct Shop<P: Parts> {
    provider: Provider<P>,
    requests: Counter<u64>,
}

impl<P: Parts> Shop<P> {
    /// A shop that counts its requests at this provider, from a moment on.
    pub fn open(alloc: Global, provider: Provider<P>, now: u64) -> Result<Shop<P>, Fault> {
        let mut provider = provider;
        let requests = counter(alloc, &mut provider, "shop", "requests", now)?;
        Ok(Shop { provider, requests })
    }

    /// Serves requests of these paths, and prints what was counted until a moment.
    pub fn serve(
        &mut self,
        rt: &impl Print,
        alloc: Global,
        paths: &[&str],
        now: u64,
    ) -> Result<(), Error> {
        for path in paths {
            let attributes = [KeyValue::text(alloc, "path", path)?];
            self.requests.add(&mut self.provider, 1, &attributes)?;
        }
        print_collection(rt, &mut self.provider, now)
    }
}
