//! Scripts whose records a worker of a shared provider hands in: they print what they print if the records are made one
//! by one. Lines that are no records end a batch.

ghost use Rattle.std.specs.Prelude.{◌≡◌, ◌%◌, ◌^◌};
ghost use Rattle.otel_model.specs.Books.{count_in, sum_in};
ghost use Rattle.opentelemetry_sdk.specs.Providers.{state_of};

use super::{Case, assert_each_prints, assert_text};
use metrics_script::points::write_metric;
use metrics_script::script_lines::{Script, script_of};
use opentelemetry_sdk::metrics::callback::NoCallback;
use opentelemetry_sdk::metrics::data::ResourceMetrics;
use opentelemetry_sdk::metrics::instrument::SelectorView;
use opentelemetry_sdk::metrics::provider::{Call, Parts, Provider, Reply};
use opentelemetry_sdk::metrics::shared::{Account, Locked, MOST_WORKERS, Worker};
use opentelemetry_sdk::metrics::{ManualReader, provider};
use otel_common::faults::Fault;
use std::alloc::Global;
use std::io;
use std::io::Write;
use std::marker::Brand;
use std::process::Abort;
use std::sync::ledger::Blank;

mod random;

/// Parts of which scripts can speak.
type Plain = provider::Plain<NoCallback, NoCallback>;

/// A provider with these readers and views.
fn provider_of(
    alloc: Global,
    readers: Vec<ManualReader>,
    views: Vec<SelectorView>,
) -> Result<Provider<Plain>, Fault> {
    let mut builder = Provider::<Plain>::builder(alloc);
    for reader in readers {
        builder = builder.with_reader(reader)?;
    }
    for view in views {
        builder = builder.with_view(view)?;
    }
    builder.build()
}

/// Puts a record into a worker's list. Answers whether the call is one.
fn add<C: Account, S: Account>(
    alloc: Global,
    worker: &mut Worker<C, S>,
    call: &Call,
) -> Result<bool, Fault> {
    match call {
        Call::Record {
            instrument,
            value,
            attributes,
        } => {
            let attributes = Vec::from_clones(alloc, attributes.as_slice())?;
            worker.add(*instrument, *value, attributes)?;
            Ok(true)
        }
        Call::RecordBound { handle, value } => {
            worker.add_bound(*handle, *value)?;
            Ok(true)
        }
        _ => Ok(false),
    }
}

/// Submits what waits, and adds a reply for each record that is made, and for one that is refused. Answers whether none is.
fn submit<P: Parts, C: Account, S: Account>(
    rt: &impl Abort,
    locked: &mut Locked<P, C, S>,
    worker: &mut Worker<C, S>,
    replies: &mut Vec<Reply>,
) -> Result<bool, Fault> {
    let before = worker.submitted();
    if before % 2 == 0 {
        worker.group();
    }
    let answer = locked.submit(worker);
    for _ in before..worker.submitted() {
        replies.push(Reply::Done)?;
    }
    match answer {
        Ok(receipt) => {
            assert_eq!(rt; receipt.accepted, worker.submitted());
            Ok(true)
        }
        Err(fault) => {
            replies.push(Reply::Refused(fault))?;
            Ok(false)
        }
    }
}

/// Submits what waits, and takes out each record that is refused.
fn submit_all<P: Parts, C: Account, S: Account>(
    rt: &impl Abort,
    locked: &mut Locked<P, C, S>,
    worker: &mut Worker<C, S>,
    replies: &mut Vec<Reply>,
) -> Result<(), Fault> {
    for _ in 0..=worker.pending() {
        if submit(rt, locked, worker, replies)? {
            return Ok(());
        }
        let _ = worker.take_first();
    }
    Ok(())
}

/// Makes the calls: records by a worker, which hands them in before any other call.
fn make_each<P: Parts, C: Account, S: Account>(
    rt: &impl Abort,
    alloc: Global,
    locked: &mut Locked<P, C, S>,
    worker: &mut Worker<C, S>,
    calls: &[Call],
    replies: &mut Vec<Reply>,
) -> Result<(), Fault> {
    for call in calls {
        if !add(alloc, worker, call)? {
            submit_all(rt, locked, worker, replies)?;
            replies.push(locked.call(call))?;
        }
    }
    submit_all(rt, locked, worker, replies)
}

/// Settles, and makes a call at the provider that comes back.
fn settle<P: Parts, C: Account, S: Account>(
    locked: Locked<P, C, S>,
    workers: Vec<Worker<C, S>>,
    last: &Call,
) -> Reply
    requires { (C.parts ≡ 4294967295) × (S.parts ≡ 4294967295) }
{
    match locked.settle(workers) {
        Ok(provider) => {
            let mut provider = provider;
            provider.step(last)
        }
        Err((fault, _, _)) => Reply::Refused(fault),
    }
}

/// Shares a provider, makes the calls, and makes the last one at the provider that comes back. Answers the replies.
fn share<C: Account, S: Account>(
    rt: &impl Abort,
    alloc: Global,
    provider: Provider<Plain>,
    records: Blank,
    values: Blank,
    calls: &[Call],
    last: &Call,
) -> Result<Vec<Reply>, Fault>
    requires records { (records.name ≡ C.name) × (records.parts ≡ C.parts) × (records.parts ≡ 4294967295) × (C.before ≡ count_in (state_of provider) % 2 ^ 64) }
    requires values { (values.name ≡ S.name) × (values.parts ≡ S.parts) × (values.parts ≡ 4294967295) × (S.before ≡ sum_in (state_of provider) % 2 ^ 64) }
{
    let mut replies = Vec::new(alloc);
    let mut locked = Locked::<Plain, C, S>::new(provider, records, values);
    let mut worker = locked.open_worker()?;
    make_each(rt, alloc, &mut locked, &mut worker, calls, &mut replies)?;
    replies.push(settle(locked, vec![in alloc; worker]?, last))?;
    Ok(replies)
}

/// The same. No ledger is named in the signature.
fn replies_by_worker(
    rt: &impl Abort,
    alloc: Global,
    provider: Provider<Plain>,
    calls: &[Call],
    last: &Call,
) -> Result<Vec<Reply>, Fault> {
    share::<Brand, Brand>(
        rt,
        alloc,
        provider,
        Blank::new(MOST_WORKERS),
        Blank::new(MOST_WORKERS),
        calls,
        last,
    )
}

/// Prints the points of a collection, as a script does.
fn print_points(output: &mut Vec<u8>, collected: &ResourceMetrics) -> io::Result<()> {
    for scope in collected.scope_metrics() {
        for metric in scope.metrics() {
            write_metric(output, scope.scope().name(), metric)?;
        }
    }
    Ok(())
}

/// Prints a collection, as a script does.
fn print_collected(
    alloc: Global,
    output: &mut Vec<u8>,
    collected: &ResourceMetrics,
) -> io::Result<()> {
    let mut points = Vec::new(alloc);
    print_points(&mut points, collected)?;
    let count = points.iter().filter(|byte| **byte == b'\n').count();
    writeln!(output, "collected {count}")?;
    output.write_all(points.as_slice())
}

/// Prints a reply, as a script does.
fn print_reply(alloc: Global, output: &mut Vec<u8>, reply: &Reply) -> io::Result<()> {
    match reply {
        Reply::Meter(Some(number)) => writeln!(output, "meter {number}"),
        Reply::Meter(None) => writeln!(output, "meter none"),
        Reply::Instrument(number) => writeln!(output, "instrument {number}"),
        Reply::Handle(number) => writeln!(output, "handle {number}"),
        Reply::Done => writeln!(output, "ok"),
        Reply::Refused(fault) => writeln!(output, "refused {} {fault}", fault.number()),
        Reply::Collected(collected) => print_collected(alloc, output, collected),
    }
}

/// What a script prints whose records a worker hands in.
fn printed_by_worker(rt: &impl Abort, alloc: Global, script: &str) -> Vec<u8> {
    let Script {
        readers,
        views,
        calls,
    } = script_of(alloc, script.as_bytes()).expect(rt, "a script");
    let mut output = Vec::new(alloc);
    let Some((last, calls)) = calls.as_slice().split_last() else {
        return output;
    };
    let provider = provider_of(alloc, readers, views).expect(rt, "a provider");
    let replies = replies_by_worker(rt, alloc, provider, calls, last).expect(rt, "replies");
    for reply in &replies {
        print_reply(alloc, &mut output, reply).expect(rt, "memory");
    }
    output
}

/// Asserts that a script prints these lines if a worker hands in its records.
pub fn assert_prints_by_worker(
    rt: &impl Abort,
    alloc: Global,
    name: &str,
    script: &str,
    lines: &str,
) {
    let output = printed_by_worker(rt, alloc, script);
    assert_text(rt, name, output.as_slice(), lines);
}

/// Scripts with batches in which several records of a series wait.
const BATCHES: &[Case] = &[
    // One set has a point, and the other one of the batch goes to the overflow point, also in the next batch.
    Case {
        name: "overflow_in_a_batch",
        script: "reader cumulative limit=1\n\
                 go\n\
                 meter m\n\
                 build 0 u64_counter c 100\n\
                 record 0 u:1 a=i:1,c=s:x,y=b:true,z=i:9\n\
                 record 0 u:10 a=i:2,c=s:x,y=b:true,z=i:9\n\
                 record 0 u:2 a=i:1,c=s:x,y=b:true,z=i:9\n\
                 record 0 u:20 a=i:2,c=s:x,y=b:true,z=i:9\n\
                 record 0 u:3 a=i:1,c=s:x,y=b:true,z=i:9\n\
                 record 0 u:30 a=i:2,c=s:x,y=b:true,z=i:9\n\
                 record 0 u:4 a=i:1,c=s:x,y=b:true,z=i:9\n\
                 record 0 u:40 a=i:2,c=s:x,y=b:true,z=i:9\n\
                 record 0 u:5 a=i:1,c=s:x,y=b:true,z=i:9\n\
                 record 0 u:50 a=i:2,c=s:x,y=b:true,z=i:9\n\
                 collect 0 200\n\
                 record 0 u:100 a=i:2,c=s:x,y=b:true,z=i:9\n\
                 collect 0 300\n",
        lines: "meter 0\n\
                instrument 0\n\
                ok\n\
                ok\n\
                ok\n\
                ok\n\
                ok\n\
                ok\n\
                ok\n\
                ok\n\
                ok\n\
                ok\n\
                collected 2\n\
                point m c sum cumulative monotonic 100 200 a=i:1,c=s:x,y=b:true,z=i:9 15\n\
                point m c sum cumulative monotonic 100 200 otel.metric.overflow=b:true 150\n\
                ok\n\
                collected 2\n\
                point m c sum cumulative monotonic 100 300 a=i:1,c=s:x,y=b:true,z=i:9 15\n\
                point m c sum cumulative monotonic 100 300 otel.metric.overflow=b:true 250\n",
    },
    // Two orders of one set are two lists of a worker and one point: the last value wins, whichever order it comes in.
    Case {
        name: "two_orders_of_a_set",
        script: "reader cumulative\n\
                 go\n\
                 meter m\n\
                 build 0 i64_gauge g 100\n\
                 record 0 i:1 a=i:1,b=i:2,c=i:3,d=i:4\n\
                 record 0 i:2 d=i:4,c=i:3,b=i:2,a=i:1\n\
                 record 0 i:3 a=i:1,b=i:2,c=i:3,d=i:4\n\
                 record 0 i:4 d=i:4,c=i:3,b=i:2,a=i:1\n\
                 record 0 i:5 a=i:1,b=i:2,c=i:3,d=i:4\n\
                 record 0 i:6 d=i:4,c=i:3,b=i:2,a=i:1\n\
                 record 0 i:7 a=i:1,b=i:2,c=i:3,d=i:4\n\
                 record 0 i:8 d=i:4,c=i:3,b=i:2,a=i:1\n\
                 record 0 i:-9 a=i:1,b=i:2,c=i:3,d=i:4\n\
                 collect 0 200\n\
                 record 0 i:10 a=i:1,b=i:2,c=i:3,d=i:4\n\
                 record 0 i:11 d=i:4,c=i:3,b=i:2,a=i:1\n\
                 record 0 i:12 a=i:1,b=i:2,c=i:3,d=i:4\n\
                 record 0 i:13 d=i:4,c=i:3,b=i:2,a=i:1\n\
                 record 0 i:14 a=i:1,b=i:2,c=i:3,d=i:4\n\
                 record 0 i:15 d=i:4,c=i:3,b=i:2,a=i:1\n\
                 record 0 i:16 a=i:1,b=i:2,c=i:3,d=i:4\n\
                 record 0 i:-17 d=i:4,c=i:3,b=i:2,a=i:1\n\
                 collect 0 300\n",
        lines: "meter 0\n\
                instrument 0\n\
                ok\n\
                ok\n\
                ok\n\
                ok\n\
                ok\n\
                ok\n\
                ok\n\
                ok\n\
                ok\n\
                collected 1\n\
                point m g gauge 100 200 a=i:1,b=i:2,c=i:3,d=i:4 -9\n\
                ok\n\
                ok\n\
                ok\n\
                ok\n\
                ok\n\
                ok\n\
                ok\n\
                ok\n\
                collected 1\n\
                point m g gauge 100 300 a=i:1,b=i:2,c=i:3,d=i:4 -17\n",
    },
    // Two sets whose records go to the overflow point: it has the last value of the batch, which is of the set that comes
    // first there.
    Case {
        name: "last_values_of_one_point",
        script: "reader cumulative limit=1\n\
                 go\n\
                 meter m\n\
                 build 0 i64_gauge g 100\n\
                 record 0 i:-3 b=i:1\n\
                 record 0 i:-1 a=i:1\n\
                 record 0 i:-2 a=i:2\n\
                 collect 0 200\n\
                 record 0 i:1 a=i:1\n\
                 record 0 i:2 a=i:2\n\
                 record 0 i:3 a=i:1\n\
                 record 0 i:4 a=i:2\n\
                 record 0 i:5 a=i:1\n\
                 record 0 i:6 a=i:2\n\
                 record 0 i:7 a=i:2\n\
                 record 0 i:8 a=i:1\n\
                 collect 0 300\n",
        lines: "meter 0\n\
                instrument 0\n\
                ok\n\
                ok\n\
                ok\n\
                collected 2\n\
                point m g gauge 100 200 b=i:1 -3\n\
                point m g gauge 100 200 otel.metric.overflow=b:true -2\n\
                ok\n\
                ok\n\
                ok\n\
                ok\n\
                ok\n\
                ok\n\
                ok\n\
                ok\n\
                collected 2\n\
                point m g gauge 100 300 b=i:1 -3\n\
                point m g gauge 100 300 otel.metric.overflow=b:true 8\n",
    },
    // A histogram of two sets: a bound is in the bucket below it, and the sum is modulo 2^64.
    Case {
        name: "histogram_of_a_batch",
        script: "reader cumulative\n\
                 go\n\
                 meter m\n\
                 build 0 u64_histogram h 100 bounds=0,5,10\n\
                 record 0 u:4 a=i:1\n\
                 record 0 u:6 a=i:2\n\
                 collect 0 200\n\
                 record 0 u:3 a=i:1\n\
                 record 0 u:5 a=i:1\n\
                 record 0 u:10 a=i:2\n\
                 record 0 u:7 a=i:1\n\
                 record 0 u:9223372036854775808 a=i:1\n\
                 record 0 u:18446744073709551615 a=i:1\n\
                 record 0 u:11 a=i:2\n\
                 record 0 u:0 a=i:1\n\
                 collect 0 300\n",
        lines: "meter 0\n\
                instrument 0\n\
                ok\n\
                ok\n\
                collected 2\n\
                point m h histogram cumulative 100 200 a=i:1 1 4 4 4 0,1,0,0\n\
                point m h histogram cumulative 100 200 a=i:2 1 6 6 6 0,0,1,0\n\
                ok\n\
                ok\n\
                ok\n\
                ok\n\
                ok\n\
                ok\n\
                ok\n\
                ok\n\
                collected 2\n\
                point m h histogram cumulative 100 300 a=i:1 7 9223372036854775826 0 18446744073709551615 1,3,1,2\n\
                point m h histogram cumulative 100 300 a=i:2 3 27 6 11 0,0,2,1\n",
    },
    // Twelve records of one series at two readers. The delta reader starts again: nothing of the batch is left there.
    Case {
        name: "two_readers",
        script: "reader cumulative\n\
                 reader delta\n\
                 go\n\
                 meter m\n\
                 build 0 u64_counter c 100\n\
                 record 0 u:1 a=i:1,c=s:x,y=b:true,z=i:9\n\
                 record 0 u:2 a=i:1,c=s:x,y=b:true,z=i:9\n\
                 record 0 u:3 a=i:1,c=s:x,y=b:true,z=i:9\n\
                 record 0 u:4 a=i:1,c=s:x,y=b:true,z=i:9\n\
                 record 0 u:5 a=i:1,c=s:x,y=b:true,z=i:9\n\
                 record 0 u:6 a=i:1,c=s:x,y=b:true,z=i:9\n\
                 record 0 u:7 a=i:1,c=s:x,y=b:true,z=i:9\n\
                 record 0 u:8 a=i:1,c=s:x,y=b:true,z=i:9\n\
                 record 0 u:9 a=i:1,c=s:x,y=b:true,z=i:9\n\
                 record 0 u:10 a=i:1,c=s:x,y=b:true,z=i:9\n\
                 record 0 u:11 a=i:1,c=s:x,y=b:true,z=i:9\n\
                 record 0 u:12 a=i:1,c=s:x,y=b:true,z=i:9\n\
                 collect 1 200\n\
                 collect 1 300\n\
                 collect 0 310\n\
                 record 0 u:1000 a=i:1,c=s:x,y=b:true,z=i:9\n\
                 collect 1 400\n\
                 collect 0 410\n",
        lines: "meter 0\n\
                instrument 0\n\
                ok\n\
                ok\n\
                ok\n\
                ok\n\
                ok\n\
                ok\n\
                ok\n\
                ok\n\
                ok\n\
                ok\n\
                ok\n\
                ok\n\
                collected 1\n\
                point m c sum delta monotonic 100 200 a=i:1,c=s:x,y=b:true,z=i:9 78\n\
                collected 0\n\
                collected 1\n\
                point m c sum cumulative monotonic 100 310 a=i:1,c=s:x,y=b:true,z=i:9 78\n\
                ok\n\
                collected 1\n\
                point m c sum delta monotonic 300 400 a=i:1,c=s:x,y=b:true,z=i:9 1000\n\
                collected 1\n\
                point m c sum cumulative monotonic 100 410 a=i:1,c=s:x,y=b:true,z=i:9 1078\n",
    },
    // A handle of the caller's records between eight lists and eight more: of its set its value is the last one, then that
    // of the lists after it.
    Case {
        name: "handle_between_lists",
        script: "reader cumulative\n\
                 go\n\
                 meter m\n\
                 build 0 i64_gauge g 100\n\
                 bind 0 a=i:1,c=s:x,y=b:true,z=i:9\n\
                 record 0 i:1 a=i:1,c=s:x,y=b:true,z=i:9\n\
                 record 0 i:2 a=i:2,c=s:x,y=b:true,z=i:9\n\
                 record 0 i:3 a=i:1,c=s:x,y=b:true,z=i:9\n\
                 record 0 i:4 a=i:2,c=s:x,y=b:true,z=i:9\n\
                 record 0 i:5 a=i:1,c=s:x,y=b:true,z=i:9\n\
                 record 0 i:6 a=i:2,c=s:x,y=b:true,z=i:9\n\
                 record 0 i:7 a=i:1,c=s:x,y=b:true,z=i:9\n\
                 record 0 i:8 a=i:2,c=s:x,y=b:true,z=i:9\n\
                 recordbound 0 i:-100\n\
                 record 0 i:9 a=i:2,c=s:x,y=b:true,z=i:9\n\
                 record 0 i:10 a=i:2,c=s:x,y=b:true,z=i:9\n\
                 record 0 i:11 a=i:2,c=s:x,y=b:true,z=i:9\n\
                 record 0 i:12 a=i:2,c=s:x,y=b:true,z=i:9\n\
                 record 0 i:13 a=i:2,c=s:x,y=b:true,z=i:9\n\
                 record 0 i:14 a=i:2,c=s:x,y=b:true,z=i:9\n\
                 record 0 i:15 a=i:2,c=s:x,y=b:true,z=i:9\n\
                 record 0 i:-16 a=i:2,c=s:x,y=b:true,z=i:9\n\
                 collect 0 200\n\
                 recordbound 0 i:50\n\
                 record 0 i:51 a=i:1,c=s:x,y=b:true,z=i:9\n\
                 record 0 i:52 a=i:1,c=s:x,y=b:true,z=i:9\n\
                 record 0 i:53 a=i:1,c=s:x,y=b:true,z=i:9\n\
                 record 0 i:54 a=i:1,c=s:x,y=b:true,z=i:9\n\
                 record 0 i:55 a=i:1,c=s:x,y=b:true,z=i:9\n\
                 record 0 i:56 a=i:1,c=s:x,y=b:true,z=i:9\n\
                 record 0 i:57 a=i:1,c=s:x,y=b:true,z=i:9\n\
                 record 0 i:60 a=i:1,c=s:x,y=b:true,z=i:9\n\
                 collect 0 300\n",
        lines: "meter 0\n\
                instrument 0\n\
                handle 0\n\
                ok\n\
                ok\n\
                ok\n\
                ok\n\
                ok\n\
                ok\n\
                ok\n\
                ok\n\
                ok\n\
                ok\n\
                ok\n\
                ok\n\
                ok\n\
                ok\n\
                ok\n\
                ok\n\
                ok\n\
                collected 2\n\
                point m g gauge 100 200 a=i:1,c=s:x,y=b:true,z=i:9 -100\n\
                point m g gauge 100 200 a=i:2,c=s:x,y=b:true,z=i:9 -16\n\
                ok\n\
                ok\n\
                ok\n\
                ok\n\
                ok\n\
                ok\n\
                ok\n\
                ok\n\
                ok\n\
                collected 2\n\
                point m g gauge 100 300 a=i:1,c=s:x,y=b:true,z=i:9 60\n\
                point m g gauge 100 300 a=i:2,c=s:x,y=b:true,z=i:9 -16\n",
    },
    // A batch takes no number of a handle: the first that is bound after one is 0, and the next after another is 1.
    Case {
        name: "handles_after_batches",
        script: "reader cumulative\n\
                 go\n\
                 meter m\n\
                 build 0 u64_histogram h 100 bounds=5,10\n\
                 record 0 u:1 a=i:1,c=s:x,y=b:true,z=i:9\n\
                 record 0 u:5 a=i:1,c=s:x,y=b:true,z=i:9\n\
                 record 0 u:6 a=i:1,c=s:x,y=b:true,z=i:9\n\
                 record 0 u:10 a=i:1,c=s:x,y=b:true,z=i:9\n\
                 record 0 u:11 a=i:1,c=s:x,y=b:true,z=i:9\n\
                 record 0 u:2 a=i:1,c=s:x,y=b:true,z=i:9\n\
                 record 0 u:5 a=i:1,c=s:x,y=b:true,z=i:9\n\
                 record 0 u:20 a=i:1,c=s:x,y=b:true,z=i:9\n\
                 bind 0 a=i:1,c=s:x,y=b:true,z=i:9\n\
                 recordbound 0 u:7\n\
                 flush\n\
                 record 0 u:3 b=i:1,c=s:x,y=b:true,z=i:9\n\
                 record 0 u:3 b=i:1,c=s:x,y=b:true,z=i:9\n\
                 record 0 u:3 b=i:1,c=s:x,y=b:true,z=i:9\n\
                 record 0 u:3 b=i:1,c=s:x,y=b:true,z=i:9\n\
                 record 0 u:8 a=i:1,c=s:x,y=b:true,z=i:9\n\
                 record 0 u:8 a=i:1,c=s:x,y=b:true,z=i:9\n\
                 record 0 u:8 a=i:1,c=s:x,y=b:true,z=i:9\n\
                 record 0 u:8 a=i:1,c=s:x,y=b:true,z=i:9\n\
                 bind 0 b=i:1,c=s:x,y=b:true,z=i:9\n\
                 recordbound 1 u:30\n\
                 unbind 0\n\
                 collect 0 200\n",
        lines: "meter 0\n\
                instrument 0\n\
                ok\n\
                ok\n\
                ok\n\
                ok\n\
                ok\n\
                ok\n\
                ok\n\
                ok\n\
                handle 0\n\
                ok\n\
                ok\n\
                ok\n\
                ok\n\
                ok\n\
                ok\n\
                ok\n\
                ok\n\
                ok\n\
                ok\n\
                handle 1\n\
                ok\n\
                ok\n\
                collected 2\n\
                point m h histogram cumulative 100 200 a=i:1,c=s:x,y=b:true,z=i:9 13 99 1 20 4,7,2\n\
                point m h histogram cumulative 100 200 b=i:1,c=s:x,y=b:true,z=i:9 5 42 3 30 4,0,1\n",
    },
    // A record at an instrument that isn't there, and one of the other number type, stop a submission. The records before
    // them are made, and those after them once they are taken out.
    Case {
        name: "refused_in_a_batch",
        script: "reader delta\n\
                 go\n\
                 meter m\n\
                 build 0 i64_up_down_counter u 100\n\
                 record 0 i:1 -\n\
                 record 0 i:-2 a=i:1,c=s:x,y=b:true,z=i:9\n\
                 record 0 i:1 -\n\
                 record 0 i:-2 a=i:1,c=s:x,y=b:true,z=i:9\n\
                 record 0 i:1 -\n\
                 record 0 i:-2 a=i:1,c=s:x,y=b:true,z=i:9\n\
                 record 0 i:1 -\n\
                 record 0 i:-2 a=i:1,c=s:x,y=b:true,z=i:9\n\
                 record 1 i:64 a=i:1,c=s:x,y=b:true,z=i:9\n\
                 record 0 i:1 -\n\
                 record 0 u:64 a=i:1,c=s:x,y=b:true,z=i:9\n\
                 record 0 i:-2 a=i:1,c=s:x,y=b:true,z=i:9\n\
                 collect 0 200\n",
        lines: "meter 0\n\
                instrument 0\n\
                ok\n\
                ok\n\
                ok\n\
                ok\n\
                ok\n\
                ok\n\
                ok\n\
                ok\n\
                refused 3 unknown instrument\n\
                ok\n\
                refused 6 wrong number type\n\
                ok\n\
                collected 2\n\
                point m u sum cumulative plain 100 200 - 5\n\
                point m u sum cumulative plain 100 200 a=i:1,c=s:x,y=b:true,z=i:9 -10\n",
    },
];

/// Batches in which several records of a series wait.
#[test]
fn batches(rt: HostRuntime) {
    assert_each_prints(&rt, rt.alloc(), BATCHES);
}
