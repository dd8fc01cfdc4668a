//! Views and readers that fail.

ghost use Rattle.std.specs.Prelude.{Some};

use super::metered::{Metered, Request, answer};
use super::readers::OwnReader;
use super::seeds::{call, write_replies};
use super::shown::assert_collected;
use super::support::{assert_text, build_faults, fault_of, manual, string, with_manual};
use opentelemetry_sdk::common::Fault;
use opentelemetry_sdk::metrics::SdkMeterProvider;
use opentelemetry_sdk::metrics::Temporality::Cumulative;
use opentelemetry_sdk::metrics::callback::NoCallback;
use opentelemetry_sdk::metrics::instrument::{Instrument, SelectorView, Stream};
use opentelemetry_sdk::metrics::provider::{Call, MeterProviderBuilder, Parts, Provider};
use opentelemetry_sdk::metrics::view::View;
use std::alloc::Global;
use std::process::Abort;

/// Gives each instrument a stream, but may find no memory for those that aren't called `hits`.
#[derive(Drop)]
struct Scarce {
    stream: Stream,
    is_scarce: bool,
}

impl View for Scarce {
    ghost answer = { λ view instrument. Some view.stream };

    fn match_inst(&self, inst: &Instrument) -> Result<Option<Stream>, Fault> {
        if self.is_scarce && inst.name() != "hits" {
            return Err(Fault::OutOfMemory);
        }
        Ok(Some(self.stream.clone()?))
    }
}

/// Readers of a program's own, and no callbacks.
struct Own;

impl Parts for Own {
    type View = SelectorView;

    type Reader = OwnReader;

    type ObserveU64 = NoCallback;

    type ObserveI64 = NoCallback;
}

/// A provider with a reader for each of these, which fails where that is true.
fn failing(rt: &impl Abort, alloc: Global, fails: &[bool]) -> Provider<Own> {
    let mut builder = Provider::builder(alloc);
    for fails in fails {
        let reader = OwnReader::new(Cumulative, Cumulative, *fails);
        builder = builder.with_reader(reader).expect(rt, "a reader");
    }
    builder.build().expect(rt, "a provider")
}

/// Makes requests, and writes the answers.
fn write_answers(
    rt: &impl Abort,
    text: &mut String,
    provider: &mut Provider<Own>,
    requests: &[Request],
) {
    for request in requests {
        let answered = answer(provider, request);
        writeln!(text, "{answered:?}").expect(rt, "memory");
    }
}

/// Writes how often each reader was asked to flush and to shut down.
fn write_asked(rt: &impl Abort, text: &mut String, readers: &[OwnReader]) {
    for reader in readers {
        write!(text, "| {} {} ", reader.flushes, reader.shutdowns).expect(rt, "memory");
    }
}

/// Asserts what requests of a provider are answered whose readers fail where this says so, and how often each reader was
/// asked to flush and to shut down.
pub fn assert_of_failing(
    rt: &impl Abort,
    alloc: Global,
    fails: &[bool],
    requests: &[Request],
    wanted: &str,
) {
    let mut text = String::new(alloc);
    let mut provider = failing(rt, alloc, fails);
    write_answers(rt, &mut text, &mut provider, requests);
    write_asked(rt, &mut text, provider.readers());
    assert_text(rt, text.as_str(), wanted);
}

/// Asserts what one run of calls is answered, and how often each reader was asked, at such a provider.
pub fn assert_run_of_failing(
    rt: &impl Abort,
    alloc: Global,
    fails: &[bool],
    calls: &[Call],
    wanted: &str,
) {
    let mut text = String::new(alloc);
    let mut provider = failing(rt, alloc, fails);
    let replies = provider.run(alloc, calls).expect(rt, "replies");
    write_replies(rt, &mut text, replies.as_slice());
    write_asked(rt, &mut text, provider.readers());
    assert_text(rt, text.as_str(), wanted);
}

/// Each flush asks all readers, and so does a shutdown, also those after one that failed, whether asked by a method or
/// by a call.
#[test]
fn readers_fail(rt: HostRuntime) {
    let requests = &[
        Request::Flush,
        Request::Flush,
        Request::Shutdown,
        Request::Shutdown,
    ];
    let wanted = "Err(InternalFailure(Readers { failed: 2, first: 0 }))\n\
         Err(InternalFailure(Readers { failed: 2, first: 0 }))\n\
         Err(InternalFailure(Readers { failed: 2, first: 0 }))\n\
         Err(AlreadyShutdown)\n\
         | 2 1 | 2 1 | 2 1 ";
    assert_of_failing(&rt, rt.alloc(), &[true, false, true], requests, wanted);
    let requests = &[
        Request::Flush,
        Request::Flush,
        Request::FlushCall,
        Request::ShutdownCall,
        Request::FlushCall,
    ];
    let wanted = "Err(InternalFailure(Readers { failed: 2, first: 1 }))\n\
         Err(InternalFailure(Readers { failed: 2, first: 1 }))\n\
         Err(InternalFailure(Readers { failed: 2, first: 1 }))\n\
         Err(InternalFailure(Readers { failed: 2, first: 1 }))\n\
         Err(AlreadyShutdown)\n\
         | 3 1 | 3 1 | 3 1 ";
    assert_of_failing(&rt, rt.alloc(), &[false, true, true], requests, wanted);
}

/// The builder with a view that gives streams of this name.
fn with_view(
    rt: &impl Abort,
    alloc: Global,
    builder: MeterProviderBuilder,
    name: &str,
    is_scarce: bool,
) -> MeterProviderBuilder {
    let stream = Stream::builder().with_name(string(rt, alloc, name)).build();
    let stream = stream.expect(rt, name);
    let view: Box<dyn View> = Box::new(alloc, Scarce { stream, is_scarce }).expect(rt, "memory");
    builder.with_view(view).expect(rt, "a view")
}

/// What each reader collects after builds that were refused.
const COLLECTED: &str = "resource -\n\
     scope app - -\n\
     metric early ()  u64 sum Cumulative monotonic=true 110 200 exemplars=0\n\
     early: 5\n\
     metric late ()  u64 sum Cumulative monotonic=true 110 200 exemplars=0\n\
     late: 5\n";

/// Asserts that a refused build leaves nothing behind, as a call or by a builder: the streams that its first view asked
/// for are as old as the next build.
fn assert_refused<M: Metered>(rt: &impl Abort, alloc: Global, provider: &mut M) {
    let meter = provider.meter_named("app").expect(rt, "a meter");
    let called = fault_of(provider.call(&call(rt, alloc, "build more 1")));
    let built = build_faults(rt, alloc, provider, meter);
    let text = format!(in alloc; "{called} {built:?}").expect(rt, "memory");
    assert_text(rt, text.as_str(), "1 [1, 1]");
    let builder = meter.u64_counter(string(rt, alloc, "hits"));
    let hits = provider.make(builder, 110).expect(rt, "a counter");
    provider.add(hits, 5, &[]).expect(rt, "a record");
    assert_collected(rt, alloc, provider, 0, 200, COLLECTED);
    assert_collected(rt, alloc, provider, 1, 200, COLLECTED);
}

/// A provider with two readers and two views, of which the second finds no memory.
fn scarce_provider(rt: &impl Abort, alloc: Global) -> SdkMeterProvider {
    let builder = with_manual(
        rt,
        alloc,
        SdkMeterProvider::builder(alloc),
        manual(Cumulative),
    );
    let builder = with_manual(rt, alloc, builder, manual(Cumulative));
    let builder = with_view(rt, alloc, builder, "early", false);
    let builder = with_view(rt, alloc, builder, "late", true);
    builder.build().expect(rt, "a provider")
}

/// A view that finds no memory refuses the build at both readers.
#[test]
fn view_without_memory(rt: HostRuntime) {
    let mut provider = scarce_provider(&rt, rt.alloc());
    assert_refused(&rt, rt.alloc(), &mut provider);
}
