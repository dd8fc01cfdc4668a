//! Worked examples of the map of sets, its aggregators, its numbers and the sets themselves.

use super::steps::show;
use super::{attributes, keys};
use otel_aggregate::aggregators::aggregator::{Aggregator, Increment};
use otel_aggregate::aggregators::assign::Assign;
use otel_aggregate::aggregators::buckets::{Buckets, counted_once};
use otel_aggregate::aggregators::number::Number;
use otel_aggregate::sets::allowed_keys::AllowedKeys;
use otel_aggregate::sets::references::references_to;
use otel_aggregate::value_map::hashed_key::HashedSet;
use otel_aggregate::value_map::hashing::SetHashBuilder;
use otel_common::faults::Fault;
use std::fmt::{Debug, Display};

mod aggregators;
pub mod maps;
mod numbers;

/// An aggregator that is written as text.
pub trait Written: Aggregator {
    fn write(&self, text: &mut String) -> Result<(), Fault>;
}

impl<T: Number + Drop + Display> Written for Increment<T> {
    fn write(&self, text: &mut String) -> Result<(), Fault> {
        show(text, &self.value)
    }
}

impl<T: Number + Drop + Display> Written for Assign<T> {
    fn write(&self, text: &mut String) -> Result<(), Fault> {
        show(text, &self.value)
    }
}

impl<T: Number + Drop + Debug> Written for Buckets<T> {
    fn write(&self, text: &mut String) -> Result<(), Fault> {
        counted_once(self);
        let counts = self.counts.as_slice();
        Ok(write!(
            text,
            "({:?}, {:?}, {:?}) {counts:?}",
            self.sum, self.least, self.greatest
        )?)
    }
}

/// The keys of an allow-list, a set, and what the list leaves of it. The second list is too long to be searched in order.
const LEFT: &[(&str, &str, &str)] = &[
    ("b", "b=1 a=2", "b=1"),
    (
        "m c x a k z q b h s",
        "b=1 d=2 z=3 zz=4 a=5 =6",
        "b=1 z=3 a=5",
    ),
];

#[test]
fn an_allow_list_drops_other_keys(rt: HostRuntime) {
    let alloc = rt.alloc();
    for (listed, set, left) in LEFT {
        let allow = AllowedKeys::new(alloc, keys(alloc, listed).expect(&rt, listed));
        let allow = allow.expect(&rt, listed);
        let given = attributes(alloc, set).expect(&rt, set);
        let left = attributes(alloc, left).expect(&rt, left);
        let kept = references_to(alloc, Some(&allow), &given).expect(&rt, set);
        let kept = HashedSet::referenced(SetHashBuilder::default(), &kept);
        assert!(rt; kept.is_list(&left), "{set}");
    }
}
