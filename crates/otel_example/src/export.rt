//! A service that exports every period: what was counted so far, as text that Prometheus reads in a file, and what is
//! new, as lines at the end of a file that the Collector follows.

ghost use Rattle.std.specs.Prelude.{⊤};

use anyhow::Result;
use opentelemetry_sdk::attributes;
use opentelemetry_sdk::common::{Fault, now_nanos};
use opentelemetry_sdk::error::SdkError;
use opentelemetry_sdk::exporter::file;
use opentelemetry_sdk::exporter::otlp::request_line;
use opentelemetry_sdk::exporter::outbox::Outbox;
use opentelemetry_sdk::exporter::prometheus::{Format, Settings, exposition_of};
use opentelemetry_sdk::exporter::schedule::Schedule;
use opentelemetry_sdk::metrics::callback::{NoCallback, Observation, ObserveU64};
use opentelemetry_sdk::metrics::data::ResourceMetrics;
use opentelemetry_sdk::metrics::meter::Counter;
use opentelemetry_sdk::metrics::provider::{Plain, Provider};
use opentelemetry_sdk::metrics::{ManualReader, Temporality};
use std::alloc::Global;
use std::rt::{Env, Files};
use std::sync::atomic::{AtomicU64, Ordering};
use std::sync::{Arc, Mutex, Wait};
use std::thread::Threads;
use std::time::{Clock, Duration};
use std::{env, fs, thread};

/// The reader whose collections have all that was counted so far, and the one whose collections have what is new.
const ALL: usize = 0;

const NEW: usize = 1;

/// How often the service exports before it ends, and how many nanoseconds there are between.
const PERIODS: u64 = 3;

const PERIOD: u64 = 2_000_000;

/// How many requests are open: the threads change the number, and each collection observes it.
#[derive(Drop)]
struct Open(Global, Arc<AtomicU64, Global>);

impl ObserveU64 for Open {
    ghost observes = { λ _ _ _ _. ⊤ };

    fn observe(&mut self, out: &mut Vec<Observation<u64>>) -> Result<(), Fault> {
        let number = self.1.load(Ordering::SeqCst);
        Ok(out.push(Observation::new(self.0, number))?)
    }
}

/// The provider of the service, whose threads share it.
type Shop = Provider<Plain<Open, NoCallback>>;

/// What the threads record: each request that was served, and how many are open.
#[derive(Drop)]
struct Requests {
    served: Counter<u64>,
    open: Arc<AtomicU64, Global>,
}

impl Requests {
    fn new(alloc: Global, shop: &mut Shop, now: u64) -> Result<Requests, SdkError> {
        let open = Arc::new(alloc, AtomicU64::new(0))?;
        let meter = shop.meter("shop")?;
        let gauge = meter.u64_observable_gauge(String::from_str(alloc, "open")?);
        let observed = Open(alloc, Arc::try_clone(&open)?);
        gauge.with_callback(observed)?.build(shop, now)?;
        let served = meter.u64_counter(String::from_str(alloc, "served")?);
        let served = served.build(shop, now)?;
        Ok(Requests { served, open })
    }

    /// Serves a request. The lock is held for the record alone.
    fn serve<T: Wait>(&self, threads: &T, alloc: Global, shop: &Mutex<Shop>) -> Result<(), Fault> {
        self.open.fetch_add(1, Ordering::SeqCst);
        let attributes = attributes![in alloc; "path" => "/cart"];
        let recorded = self.served.add(&mut shop.lock(threads), 1, &attributes);
        self.open.fetch_sub(1, Ordering::SeqCst);
        recorded
    }

    /// What one thread does.
    fn serve_all<T: Wait>(&self, threads: &T, alloc: Global, shop: &Mutex<Shop>) {
        for _ in 0..25 {
            let _ = self.serve(threads, alloc, shop);
        }
    }
}

/// Where the service exports to, when, and what it has not handed over yet: a collection that is no line yet, and lines.
#[derive(Drop)]
struct Exports<'a> {
    alloc: Global,
    text: &'a str,
    lines: &'a str,
    schedule: Schedule,
    collected: Option<ResourceMetrics>,
    outbox: Outbox,
}

impl Exports<'_> {
    /// Hands over what is new, and replaces the text. Where one of these fails the others are done all the same, and the
    /// first fault is answered.
    fn export<R: Files + Alloc, T: Wait>(
        &mut self,
        rt: &R,
        threads: &T,
        shop: &Mutex<Shop>,
        now: u64,
    ) -> Result<(), SdkError> {
        let collected = self.collect_new(threads, shop, now);
        let sent = self.outbox.send(rt, self.lines).map_err(SdkError::Write);
        let replaced = self.replace_text(rt, threads, shop, now);
        collected.and(sent).and(replaced)
    }

    /// Replaces the text by one of all that was counted. The lock is held for the collection alone.
    fn replace_text<R: Files + Alloc, T: Wait>(
        &self,
        rt: &R,
        threads: &T,
        shop: &Mutex<Shop>,
        now: u64,
    ) -> Result<(), SdkError> {
        let all = shop.lock(threads).collected(ALL, now)?;
        let made = exposition_of(self.alloc, Settings::new(Format::Prometheus), &all)?;
        Ok(file::replace(rt, self.text, &made.text)?)
    }

    /// Puts what is new into the outbox if there is room: otherwise it adds up in the provider. For want of memory the
    /// collection is kept for the next time.
    fn collect_new<T: Wait>(
        &mut self,
        threads: &T,
        shop: &Mutex<Shop>,
        now: u64,
    ) -> Result<(), SdkError> {
        if self.collected.is_none() && self.outbox.has_room() {
            self.collected = Some(shop.lock(threads).collected(NEW, now)?);
        }
        if let Some(new) = &self.collected {
            let line = request_line(self.alloc, new)?;
            if self.outbox.push(line).is_err() {
                return Err(SdkError::from(Fault::OutOfMemory));
            }
            self.collected = None;
        }
        Ok(())
    }

    /// Exports whenever it is due. If an export fails the service goes on, and what was not handed over goes with the next.
    fn export_each_period<R: Files + Alloc + Clock + Eprint, T: Wait>(
        &mut self,
        rt: &R,
        threads: &T,
        shop: &Mutex<Shop>,
    ) -> Result<()> {
        for _ in 0..PERIODS {
            let wait = self.schedule.next_moment().saturating_sub(now_nanos(rt)?);
            thread::sleep(rt, Duration::from_nanos(wait));
            let now = now_nanos(rt)?;
            if self.schedule.due(now)
                && let Err(error) = self.export(rt, threads, shop, now)
            {
                eprintln!(rt; "{error}")?;
            }
        }
        Ok(())
    }
}

/// Four threads serve requests, and this one exports meanwhile. At the end it exports what is left, and shuts down.
fn run<R: Files + Alloc + Clock + Eprint, T: Threads + Wait + Sync>(
    rt: &R,
    threads: &T,
    mut shop: Shop,
    exports: &mut Exports<'_>,
) -> Result<()> {
    let alloc = exports.alloc;
    let requests = Requests::new(alloc, &mut shop, now_nanos(rt)?)?;
    let shop = Mutex::new(shop);
    let (requests, shared) = (&requests, &shop);
    thread::scope(thread::scope_env(), threads, |scope| {
        for _ in 0..4 {
            let served = scope.spawn(move || requests.serve_all(threads, alloc, shared));
            if served.is_err() {
                requests.serve_all(threads, alloc, shared);
            }
        }
        exports.export_each_period(rt, threads, shared)
    })?;
    let last = exports.export(rt, threads, &shop, now_nanos(rt)?);
    shop.into_inner().shutdown()?;
    Ok(last?)
}

/// Prints how many requests the text counts, and how many lines there are.
fn print_files<R: Files + Alloc + Print>(rt: &R, text: &str, lines: &str) -> Result<()> {
    for line in fs::read_to_string(rt, text)?.as_str().lines() {
        if line.starts_with("served_total") {
            println!(rt; "{line}")?;
        }
    }
    let number = fs::read_to_string(rt, lines)?.as_str().lines().count();
    Ok(println!(rt; "{number} lines")?)
}

/// The service, with files in a new folder, which is removed at the end.
pub fn with_exports<R: Files + Alloc + Clock + Env + Print + Eprint, T: Threads + Wait + Sync>(
    rt: &R,
    threads: &T,
    alloc: Global,
) -> Result<()> {
    let now = now_nanos(rt)?;
    let folder = env::temp_dir(rt)?;
    let folder = folder.as_path().as_str();
    let folder = format!(in alloc; "{folder}/otel_example_{now}")?;
    let folder = folder.as_str();
    fs::create_dir(rt, folder)?;
    let text = format!(in alloc; "{folder}/shop.prom")?;
    let lines = format!(in alloc; "{folder}/shop.jsonl")?;
    let mut exports = Exports {
        alloc,
        text: text.as_str(),
        lines: lines.as_str(),
        schedule: Schedule::new(now.saturating_add(PERIOD), PERIOD),
        collected: None,
        outbox: Outbox::new(alloc, 1 << 20),
    };
    let delta = ManualReader::builder().with_temporality(Temporality::Delta);
    let shop = Provider::builder(alloc)
        .with_reader(ManualReader::default())?
        .with_reader(delta.build())?
        .build()?;
    run(rt, threads, shop, &mut exports)?;
    print_files(rt, text.as_str(), lines.as_str())?;
    Ok(fs::remove_dir_all(rt, folder)?)
}
