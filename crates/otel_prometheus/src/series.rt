//! Series of samples as text, each with the labels of one point.

ghost use Rattle.std.specs.Prelude.{◌≡◌, ◌==◌, ◌++◌, ◌+◌, ◌-◌, ◌≤◌, ◌%◌, ◌^◌, [], ◌∷◌, ℕ, List, cond, length, take, drop, flat_map, IsTrue, OnOk, IfOk};
ghost use Rattle.std.proofs.Common.{rules};
ghost use Rattle.std.specs.Cmp.Rules.{comparing};
ghost use Rattle.std.specs.Cmp.Lexicographic.{pointwise, bytes_decides};
ghost use Rattle.std.specs.Hash as fed;
ghost use Rattle.otel_prometheus.specs.Samples.{Pair};
ghost use Rattle.otel_prometheus.specs.Series.{kept_text, doubled_texts};
ghost use Rattle.otel_prometheus.specs.Texts.{written_behind, with_mark, pieces_from, pieces};

use indexmap::IndexSet;
use std::alloc::{AllocError, Global};
use std::hash::{Hash, Hasher};
use std::marker::Model;

/// How many bytes the labels of most points take.
const MOST_LABELS: usize = 96;

/// How many bytes the line of most points takes.
const MOST_LINES: usize = 128;

/// Spelled labels, which are hashed whole. Contracts see them as their bytes.
#[derive(Drop)]
struct Spelled<'a> {
    text: &'a [u8],
}

impl<'a> Model for Spelled<'a> {
    ghost use Rattle.std.specs.Prelude.{List, ℕ};

    ghost Value = { List ℕ };

    ghost view = { λ s. s.text.now };
}

impl<'a> PartialEq for Spelled<'a> {
    ghost eq = { pointwise ◌==◌ };

    ghost laws = { Prim.search (comparing, rules) };

    fn eq(&self, other: &Spelled<'a>) -> bool {
        self.text == other.text
    }
}

impl<'a> Eq for Spelled<'a> {
    ghost laws = { Prim.search (comparing, rules) };
}

impl<'a> Hash for Spelled<'a> {
    ghost hash_input = { λ s. s ∷ [] };

    ghost respects_eq = { (fed.same_Alike (λ s. s ∷ []) bytes_decides).fed };

    fn hash<H: Hasher>(&self, state: &mut H) {
        state.write(self.text);
    }
}

/// How many bytes the labels and the lines of a series take.
#[derive(Clone, Copy)]
pub(crate) struct Mark {
    labels: usize,
    lines: usize,
}

/// The samples of points: the spelled labels of all of them, the lines of all, and how many bytes those of each take;
/// and memory for the front of the lines of a histogram's buckets.
#[derive(Drop)]
pub(crate) struct Texts {
    pub(crate) labels: Vec<u8>,
    pub(crate) lines: Vec<u8>,
    marks: Vec<Mark>,
    pub(crate) front: Vec<u8>,
}

impl Model for Texts {
    ghost use Rattle.otel_prometheus.specs.Texts.{Written};

    ghost Value = { Written };

    ghost view = { λ t. record { labels = t.labels.items; lines = t.lines.items; marks = t.marks.items } };
}

impl Texts {
    /// Makes the texts of no series, whose lines will stand behind this text. Takes no memory.
    pub(crate) fn behind(alloc: Global, text: Vec<u8>) -> Texts
        ensures { result ≡ written_behind text.items }
    {
        Texts {
            labels: Vec::new(alloc),
            lines: text,
            marks: Vec::new(alloc),
            front: Vec::new(alloc),
        }
    }

    /// Makes room for this many more series, of which most take no more.
    pub(crate) fn reserve(&mut self, count: usize) -> Result<(), AllocError>
        ensures { OnOk result (self.new ≡ self.old) }
    {
        self.labels.reserve(count.saturating_mul(MOST_LABELS))?;
        self.lines.reserve(count.saturating_mul(MOST_LINES))?;
        self.marks.reserve(count)
    }

    /// Ends the series whose labels and lines begin at these places.
    pub(crate) fn end_series(&mut self, labels: usize, lines: usize) -> Result<(), AllocError>
        requires labels { labels ≤ length self.old.labels }
        requires lines { lines ≤ length self.old.lines }
        ensures { OnOk result (self.new ≡ with_mark self.old (length self.old.labels - labels) (length self.old.lines - lines)) }
    {
        let mark = Mark {
            labels: self.labels.len() - labels,
            lines: self.lines.len() - lines,
        };
        match self.marks.push(mark) {
            Ok(()) => Ok(()),
            Err(_) => Err(AllocError),
        }
    }
}

/// Notes labels as seen. Returns whether they are new.
fn note<'a>(seen: &mut IndexSet<Spelled<'a>>, labels: &'a [u8]) -> Result<bool, AllocError>
    ensures text { (lines : List ℕ) (rest : List Pair) → IfOk result (λ is_new. kept_text seen.old.keys ((labels.now, lines) ∷ rest) ≡ cond is_new (lines ++ kept_text seen.new.keys rest) (kept_text seen.new.keys rest)) }
    ensures doubled { (lines : List ℕ) (rest : List Pair) → IfOk result (λ is_new. doubled_texts seen.old.keys ((labels.now, lines) ∷ rest) ≡ cond is_new (doubled_texts seen.new.keys rest) (1 + doubled_texts seen.new.keys rest)) }
{
    match seen.insert_full(Spelled { text: labels }) {
        Ok((_, is_new)) => Ok(is_new),
        Err(_) => Err(AllocError),
    }
}

/// Splits a text behind this many bytes, or behind all if there are less.
fn split(text: &[u8], count: usize) -> (&[u8], &[u8])
    ensures first { result.0.now ≡ take count text.now }
    ensures rest { result.1.now ≡ drop count text.now }
{
    text.split_at(count.min(text.len()))
}

/// Whether no two series have the same labels.
fn are_distinct(alloc: Global, labels: &[u8], marks: &[Mark]) -> Result<bool, AllocError>
    ensures { (lines : List ℕ) → IfOk result (λ b. IsTrue b → doubled_texts [] (pieces_from labels.now lines marks.now) ≡ 0) }
{
    let mut seen = IndexSet::with_capacity(alloc, marks.len())?;
    let mut left = labels;
    for mark in marks {
        let (own, more) = split(left, mark.labels);
        if !note(&mut seen, own)? {
            return Ok(false);
        }
        left = more;
    }
    Ok(true)
}

/// Appends the lines of a series, unless its labels were seen. Returns 1 if they were, and else 0.
fn push_series<'a>(
    out: &mut Vec<u8>,
    seen: &mut IndexSet<Spelled<'a>>,
    labels: &'a [u8],
    lines: &[u8],
) -> Result<u64, AllocError>
    ensures text { (rest : List Pair) → OnOk result (out.new.items ++ kept_text seen.new.keys rest ≡ out.old.items ++ kept_text seen.old.keys ((labels.now, lines.now) ∷ rest)) }
    ensures doubled { (rest : List Pair) → IfOk result (λ n. doubled_texts seen.old.keys ((labels.now, lines.now) ∷ rest) ≡ n + doubled_texts seen.new.keys rest) }
{
    if !note(seen, labels)? {
        return Ok(1);
    }
    out.extend_from_slice(lines)?;
    Ok(0)
}

/// Appends the lines of series. Of those with the same labels the first stands. Returns how many the others are, modulo
/// 2^64.
#[tactic(auto, using(crate::proofs::SeriesLemmas::counted))]
fn push_first(
    alloc: Global,
    out: &mut Vec<u8>,
    labels: &[u8],
    lines: &[u8],
    marks: &[Mark],
) -> Result<u64, AllocError>
    ensures text { OnOk result (out.new.items ≡ out.old.items ++ kept_text [] (pieces_from labels.now lines.now marks.now)) }
    ensures doubled { IfOk result (λ count. count ≡ doubled_texts [] (pieces_from labels.now lines.now marks.now) % 2 ^ 64) }
{
    let mut seen = IndexSet::with_capacity(alloc, marks.len())?;
    let mut count = 0u64;
    let mut labels_left = labels;
    let mut lines_left = lines;
    for mark in marks {
        let (key, more_labels) = split(labels_left, mark.labels);
        let (own, more_lines) = split(lines_left, mark.lines);
        count = count.wrapping_add(push_series(out, &mut seen, key, own)?);
        labels_left = more_labels;
        lines_left = more_lines;
    }
    Ok(count)
}

/// Returns the text without the lines of series with the labels of an earlier one, and how many these series are,
/// modulo 2^64. The lines of all series are those from this place on.
pub(crate) fn without_doubled(
    alloc: Global,
    texts: Texts,
    start: usize,
) -> Result<(Vec<u8>, u64), AllocError>
    requires within { start ≤ length texts.lines }
    requires whole { flat_map (λ x. x.1) (pieces start texts) ≡ drop start texts.lines }
    ensures text { IfOk result (λ made. made.0.items ≡ take start texts.lines ++ kept_text [] (pieces start texts)) }
    ensures doubled { IfOk result (λ made. made.1 ≡ doubled_texts [] (pieces start texts) % 2 ^ 64) }
{
    let Texts {
        labels,
        mut lines,
        marks,
        front: _front,
    } = texts;
    if are_distinct(alloc, labels.as_slice(), marks.as_slice())? {
        return Ok((lines, 0));
    }
    let own = Vec::from_slice(alloc, &lines.as_slice()[start..])?;
    lines.truncate(start);
    let count = push_first(
        alloc,
        &mut lines,
        labels.as_slice(),
        own.as_slice(),
        marks.as_slice(),
    )?;
    Ok((lines, count))
}
