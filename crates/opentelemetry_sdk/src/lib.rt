//! Metrics: a provider hands out meters, meters make instruments, instruments take in records, and each reader collects
//! what was recorded, as points by scope, metric and set of attributes.
//!
//! This crate has the provider: its core is the state without views, readers and callbacks, and what each call does to
//! it; beside the core stand these parts; meters, instruments and handles are values. The public modules show all of it,
//! and the crates below:
//!
//! - [`common`]: attributes and their canonical sets, instrumentation scopes, faults;
//! - [`resource`]: what all the metrics of a provider come from;
//! - [`metrics`]: the provider and its calls, checks of instruments, views and settings of streams, readers, the data
//!   of a collection, aggregation, a provider that threads share;
//! - [`exporter`]: a collection as text that Prometheus reads, or as a line of OTLP JSON;
//! - [`error`]: one error for functions that make streams and call a provider; and the macro [`attributes!`].
//!
//! A builder makes a provider from views and readers. Meters, instruments and handles belong to it, and their calls name
//! it. A refused call changes nothing, except that in a flush or a shutdown in which readers failed each was asked, that
//! such a shutdown has shut the provider down, and that callbacks which ran before a collection was refused keep what they
//! did to themselves. Here a counter takes in a record and is collected, which prints `requests path=/cart: 3`:
//!
//! ```
//! let mut shop = Provider::<Plain<NoCallback, NoCallback>>::builder(alloc)
//!     .with_reader(ManualReader::default())?
//!     .build()?;
//! let name = String::from_str(alloc, "requests")?;
//! let requests = shop.meter("shop")?.u64_counter(name).build(&mut shop, 100)?;
//! requests.add(&mut shop, 3, &attributes![in alloc; "path" => "/cart"])?;
//! print!(rt; "{}", shop.collected(0, 200)?)?;
//! ```
//!
//! The same calls can be made as data, one by `step` or a list of them by `run`, on whose clauses the promises stand.
//! There a collection is handed what was observed, and no callback runs.
#![tactic(auto)]

mod calls;
pub mod error;
pub mod exporter;
mod laws;
pub mod metrics;
mod parts;
mod pipeline;
mod provider;
mod provider_core;
mod values;

pub use otel_common::resource::Resource;
pub use otel_common::{common, resource};
pub use values::attributes::AttributeValue;
