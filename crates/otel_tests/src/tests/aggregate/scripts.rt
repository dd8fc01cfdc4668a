//! Scripts: a line that says what is made, and lines of steps that are done to it.

use super::aggregates::precomputed_sums::assert_observed;
use super::aggregates::{assert_stream, histogram};
use super::keys;
use super::steps::{Readable, parts};
use super::value_maps::maps::assert_map;
use otel_aggregate::aggregators::aggregator::Increment;
use otel_aggregate::aggregators::assign::Assign;
use otel_aggregate::histogram::HistogramAggregate;
use otel_aggregate::last_value::LastValueAggregate;
use otel_aggregate::sum::SumAggregate;
use otel_common::metrics::Temporality;
use std::alloc::Global;
use std::process::Abort;

/// How a stream or a map is made, and the lines of its steps.
#[derive(Drop)]
pub struct Made<'a> {
    pub temporality: Temporality,
    pub limit: usize,
    pub lines: &'a str,
}

/// Makes what the first line says, and asserts what the steps of the other lines answer. The first line has a kind, a
/// limit, and for streams the temporality; then come the keys of an allow-list, or the bounds of a histogram.
pub fn assert_script(rt: &impl Abort, alloc: Global, script: &str) {
    let (head, lines) = parts(script.trim(), "\n");
    let (kind, rest) = parts(head, ", limit ");
    let (limit, rest) = parts(rest, ", ");
    let (temporality, list) = parts(rest, ": ");
    let made = Made {
        temporality: temporality.parse().unwrap_or(Temporality::Cumulative),
        limit: u64::read(limit) as usize,
        lines,
    };
    match kind {
        "sum of u64" => assert_stream::<u64, SumAggregate>(rt, alloc, true, None, &made),
        "sum of u64 by keys" => {
            let allow = keys(alloc, list).expect(rt, head);
            assert_stream::<u64, SumAggregate>(rt, alloc, true, Some(allow), &made);
        }
        "sum of i64" => assert_stream::<i64, SumAggregate>(rt, alloc, false, None, &made),
        "observed sum of u64" => assert_observed::<u64>(rt, alloc, &made),
        "observed sum of i64" => assert_observed::<i64>(rt, alloc, &made),
        "last value of u64" => assert_stream::<u64, LastValueAggregate>(rt, alloc, (), None, &made),
        "last value of i64" => assert_stream::<i64, LastValueAggregate>(rt, alloc, (), None, &made),
        "histogram of u64" => {
            let settings = histogram(rt, alloc, list, true);
            assert_stream::<u64, HistogramAggregate>(rt, alloc, settings, None, &made);
        }
        "histogram of i64" => {
            let settings = histogram(rt, alloc, list, true);
            assert_stream::<i64, HistogramAggregate>(rt, alloc, settings, None, &made);
        }
        "counts of i64" => {
            let settings = histogram(rt, alloc, list, false);
            assert_stream::<i64, HistogramAggregate>(rt, alloc, settings, None, &made);
        }
        "map of sums of u64" => assert_map::<Increment<u64>>(rt, alloc, &made),
        "map of sums of i64" => assert_map::<Increment<i64>>(rt, alloc, &made),
        "map of last values of i64" => assert_map::<Assign<i64>>(rt, alloc, &made),
        _ => panic!(rt; "{head}"),
    }
}
