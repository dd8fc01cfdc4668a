//! Lines that wait until they are handed over, so that a failed write loses none.

ghost use Rattle.std.specs.Prelude.{◌≡◌, ◌<◌, ◌++◌, ◌↔◌, [], false, length, IsTrue, IfErr, OnErr, OnOk};
ghost use Rattle.otel_export.specs.Outboxes.{HandsOver, SendsOrKeeps, ended};

use crate::faults::WriteFault;
use crate::file::{ends_in_mid_line, open_end};
use crate::writing::{add_line, close_line, remove_front, whole_lines, write_most};
use std::alloc::Global;
use std::io::Write;
use std::marker::Model;
use std::path::AsPath;
use std::rt::Files;

/// Lines that are not handed over yet. Contracts see the budget, the bytes of the lines that wait, and whether a part of
/// the first of them was written.
///
/// A program asks `has_room` before it collects from a delta reader, and where there is no room it leaves the deltas in
/// the provider, where they add up to the next collection.
#[derive(Drop)]
pub struct Outbox {
    budget: usize,
    waiting: Vec<u8>,
    is_cut: bool,
}

impl Model for Outbox {
    ghost use Rattle.otel_export.specs.Outboxes.{AreLines, Unsent};

    ghost Value = { Unsent };

    ghost view = { λ o. record { budget = o.budget; waiting = o.waiting.items; is_cut = o.is_cut } };

    ghost invariant = { λ o. AreLines o.waiting.items };
}

impl Outbox {
    /// An empty outbox that takes lines while fewer bytes than `budget` wait. Takes no memory.
    pub fn new(alloc: Global, budget: usize) -> Outbox
        ensures { result ≡ record { budget = budget; waiting = []; is_cut = false } }
    {
        Outbox {
            budget,
            waiting: Vec::new(alloc),
            is_cut: false,
        }
    }

    /// Whether fewer bytes wait than the budget.
    pub fn has_room(&self) -> bool
        ensures { IsTrue result ↔ (length self.now.waiting < self.now.budget) }
    {
        self.waiting.len() < self.budget
    }

    /// Takes a line in behind those that wait, if there is room, so that at most one line passes the budget. A line break
    /// is put behind a line that ends in none. Where there is no room or no memory the line is given back.
    pub fn push(&mut self, line: Vec<u8>) -> Result<(), Vec<u8>>
        ensures room { OnOk result (length self.old.waiting < self.old.budget) }
        ensures added { OnOk result (self.new ≡ record self.old { waiting = self.old.waiting ++ ended line.items }) }
        ensures given_back { IfErr result (λ back. back.items ≡ line.items) }
        ensures unchanged { OnErr result (self.new ≡ self.old) }
    {
        if !self.has_room() || add_line(&mut self.waiting, &line).is_err() {
            return Err(line);
        }
        Ok(())
    }

    /// Writes the lines that wait, and forgets those that are written whole. If the writer fails in the middle of a line,
    /// the next sending closes it with a line break, and writes that line again from its start. So who reads gets each
    /// line at least once, and twice at most the one at which the writer failed. Takes no memory.
    pub fn send_to<W: Write>(&mut self, out: &mut W) -> Result<(), WriteFault>
        ensures sent { SendsOrKeeps self.old self.new (W.contents out.old) (W.contents out.new) }
        ensures all { OnOk result (self.new.waiting ≡ []) }
        ensures budget { self.new.budget ≡ self.old.budget }
    {
        close_line(out, self.is_cut)?;
        let (written, answer) = write_most(out, &self.waiting);
        let whole = whole_lines(&self.waiting[..written]);
        self.is_cut = whole < written;
        remove_front(&mut self.waiting, whole);
        Ok(answer?)
    }

    /// Does that at the end of a file, which is made if it isn't there. If nothing waits, the file isn't opened. A half
    /// line that another writer left at its end is closed too.
    pub fn send<R: Files, P: AsPath>(&mut self, rt: &R, path: P) -> Result<(), WriteFault>
        ensures ordered { HandsOver self.old self.new }
        ensures all { OnOk result (self.new.waiting ≡ []) }
        ensures budget { self.new.budget ≡ self.old.budget }
    {
        if self.waiting.is_empty() {
            return Ok(());
        }
        let path = path.path_text();
        let mut file = open_end(rt, path)?;
        self.is_cut = ends_in_mid_line(rt, path).unwrap_or(self.is_cut);
        self.send_to(&mut file)
    }
}
