//! An outbox: a line is pushed, or what waits is sent.

use crate::refused_memory::trials::Trial;
use anyhow::{Error, bail};
use opentelemetry_sdk::common::Fault;
use opentelemetry_sdk::exporter::outbox::Outbox;

/// Pushes a line, between the marks if that is under test. A line that is given back is pushed once more.
fn push<R: Print>(trial: &mut Trial<R>, outbox: &mut Outbox, text: &str) -> Result<(), Error> {
    let line = Vec::from_slice(trial.alloc, text.as_bytes())?;
    trial.begin("push")?;
    let pushed = outbox.push(line);
    trial.end("push")?;
    let Err(line) = pushed else {
        return Ok(());
    };
    trial.refuse(Fault::OutOfMemory)?;
    if outbox.push(line).is_err() {
        bail!("a line is given back where there is memory");
    }
    Ok(())
}

/// Fills an outbox and sends what waits, between the marks if that is under test, and writes what was sent.
pub fn write_export<R: Print>(trial: &mut Trial<R>) -> Result<(), Error> {
    let mut outbox = Outbox::new(trial.alloc, 100);
    let mut out = Vec::with_capacity(trial.alloc, 100)?;
    push(trial, &mut outbox, "a line without a break")?;
    trial.begin("send")?;
    let sent = outbox.send_to(&mut out);
    trial.end("send")?;
    sent?;
    trial.write(&out)
}
