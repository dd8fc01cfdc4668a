//! Expositions: the text of a whole collection.

ghost use Rattle.std.specs.Prelude.{◌≡◌, ◌++◌, ◌%◌, ◌^◌, [], false, Some, OnOk, IfOk, map, option_map, flat_map, fold};
ghost use Rattle.otel_prometheus.specs.Lines.{sample, spelled, text_of};
ghost use Rattle.otel_prometheus.specs.Reading.{read};
ghost use Rattle.otel_prometheus.specs.Collections.{kind_word, kind_end, help_lines, front_lines, target_type, target_front, target_lines, end_lines, lines_of, doubled_points, left_out_of};
ghost use Rattle.otel_prometheus.specs.Consumers.{read_points};
ghost use Rattle.otel_prometheus.specs.Shown.{all_read};
ghost use Rattle.otel_prometheus.specs.Totals.{total};
ghost use Rattle.otel_prometheus.specs.Groups.{all_members, groups_of, member_series, group_series, group_lines};
ghost use Rattle.otel_prometheus.specs.Labels.{resource_labels};
ghost use Rattle.otel_prometheus.specs.Series.{kept, doubled};
ghost use Rattle.otel_prometheus.specs.Texts.{with_series};

use crate::families::{Family, Group, Member, delta_points, grouped};
use crate::headings::{Heading, Kind, longer};
use crate::labels::resource_labels;
use crate::laws::{says_lines, says_points};
use crate::points::add_content;
use crate::series::{Texts, without_doubled};
use crate::settings::Settings;
use crate::text::comments::{push_finish, push_help, push_kind};
use crate::text::formats::Format;
use crate::text::labels::{Label, push_labels};
use crate::text::samples::push_line;
use otel_common::resource::Resource;
use otel_data::collections::ResourceMetrics;
use std::alloc::{AllocError, Global};
use std::mem;

/// How many points a text leaves out, each modulo 2^64.
#[derive(Clone, Copy, Debug, PartialEq, Eq)]
pub struct LeftOut {
    /// Points that cover one collection alone: their reader asks for delta temporality.
    pub delta: u64,
    /// Points of metrics whose name is that of a family of another type, or may be that of one of its samples.
    pub conflicting: u64,
    /// Points whose labels are those of an earlier point of their family.
    pub doubled: u64,
}

/// The text of a collection, and what it leaves out.
#[derive(Debug, Drop)]
pub struct Exposition {
    /// The text.
    pub text: Vec<u8>,
    /// How many points the text leaves out.
    pub left_out: LeftOut,
}

/// Adds a series for each point of these metrics of a family.
fn add_members(
    alloc: Global,
    settings: Settings,
    heading: &Heading,
    members: &[Member],
    texts: &mut Texts,
) -> Result<(), AllocError>
    ensures { OnOk result (texts.new ≡ fold with_series texts.old (flat_map (member_series settings heading.now) members.now)) }
{
    for member in members {
        let content = member.metric.data();
        add_content(alloc, settings, member.scope, heading, content, texts)?;
    }
    Ok(())
}

/// The word for a type.
fn kind_word(kind: Kind) -> &'static str
    ensures { result.now ≡ kind_word kind }
{
    match kind {
        Kind::Counter => "counter",
        Kind::Gauge => "gauge",
        Kind::Histogram => "histogram",
    }
}

/// What follows the name of a family where its type stands.
fn kind_end(format: Format, kind: Kind) -> &'static str
    ensures { result.now ≡ kind_end format kind }
{
    match (format, kind) {
        (Format::Prometheus, Kind::Counter) => "_total",
        (Format::Prometheus, Kind::Gauge) => "",
        (Format::Prometheus, Kind::Histogram) => "",
        (Format::OpenMetrics, _) => "",
    }
}

/// Appends the help text, if there is one.
fn push_help_line(
    out: &mut Vec<u8>,
    format: Format,
    name: &str,
    text: &str,
) -> Result<(), AllocError>
    ensures { OnOk result (out.new.items ≡ out.old.items ++ text_of format (help_lines name.now text.now)) }
{
    let Some(_) = text.as_bytes().split_first() else {
        return Ok(());
    };
    push_help(out, format, name, text)
}

/// Appends the help text and the type of a family.
#[tactic(auto, using(crate::proofs::SeriesLemmas::text_of_append))]
fn push_front(
    alloc: Global,
    out: &mut Vec<u8>,
    format: Format,
    family: &Family,
) -> Result<(), AllocError>
    ensures { OnOk result (out.new.items ≡ out.old.items ++ text_of format (front_lines format family.now)) }
{
    let end = kind_end(format, family.heading.kind);
    let name = longer(alloc, family.heading.name.as_str(), end)?;
    push_help_line(out, format, name.as_str(), family.help.as_str())?;
    push_kind(out, name.as_str(), kind_word(family.heading.kind))?;
    Ok(())
}

/// Appends the samples of a family. Returns how many series it leaves out, modulo 2^64.
fn push_samples(
    alloc: Global,
    settings: Settings,
    out: &mut Vec<u8>,
    group: &Group,
) -> Result<u64, AllocError>
    ensures text { OnOk result (out.new.items ≡ out.old.items ++ text_of settings.format (map sample (flat_map (λ x. x.samples) (kept [] (group_series settings group.now))))) }
    ensures doubled { IfOk result (λ count. count ≡ doubled [] (group_series settings group.now) % 2 ^ 64) }
{
    let start = out.len();
    let members = group.members.as_slice();
    let mut texts = Texts::behind(alloc, mem::replace(out, Vec::new(alloc)));
    add_members(alloc, settings, &group.family.heading, members, &mut texts)?;
    let (text, count) = without_doubled(alloc, texts, start)?;
    *out = text;
    Ok(count)
}

/// Appends the lines of a family. Returns how many series it leaves out, modulo 2^64.
#[tactic(auto, using(crate::proofs::SeriesLemmas::text_of_append))]
fn push_group(
    alloc: Global,
    settings: Settings,
    out: &mut Vec<u8>,
    group: &Group,
) -> Result<u64, AllocError>
    ensures text { OnOk result (out.new.items ≡ out.old.items ++ text_of settings.format (group_lines settings group.now)) }
    ensures doubled { IfOk result (λ count. count ≡ doubled [] (group_series settings group.now) % 2 ^ 64) }
{
    push_front(alloc, out, settings.format, &group.family)?;
    let count = push_samples(alloc, settings, out, group)?;
    Ok(count)
}

/// Appends the lines of families. Returns how many series they leave out, modulo 2^64.
#[tactic(auto, using(crate::proofs::SeriesLemmas::text_of_append, crate::proofs::SeriesLemmas::counted_rest))]
fn push_groups(
    alloc: Global,
    settings: Settings,
    out: &mut Vec<u8>,
    groups: &[Group],
) -> Result<u64, AllocError>
    ensures text { OnOk result (out.new.items ≡ out.old.items ++ text_of settings.format (flat_map (group_lines settings) groups.now)) }
    ensures doubled { IfOk result (λ count. count ≡ total (λ g. doubled [] (group_series settings g)) groups.now % 2 ^ 64) }
{
    let mut count = 0u64;
    for group in groups {
        let own = push_group(alloc, settings, out, group)?;
        count = count.wrapping_add(own);
    }
    Ok(count)
}

/// Appends the help text and a type under a name of what says what the resource is.
fn push_target_type(
    out: &mut Vec<u8>,
    format: Format,
    name: &str,
    word: &str,
) -> Result<(), AllocError>
    ensures { OnOk result (out.new.items ≡ out.old.items ++ text_of format (target_type name.now word.now)) }
{
    push_help(out, format, name, "Target metadata")?;
    push_kind(out, name, word)?;
    Ok(())
}

/// Appends the help text and the type of what says what the resource is.
fn push_target_front(out: &mut Vec<u8>, format: Format) -> Result<(), AllocError>
    ensures { OnOk result (out.new.items ≡ out.old.items ++ text_of format (target_front format)) }
{
    match format {
        Format::Prometheus => push_target_type(out, format, "target_info", "gauge"),
        Format::OpenMetrics => push_target_type(out, format, "target", "info"),
    }
}

/// Appends labels as what says what the resource is, unless there are none.
fn push_target_labels(
    alloc: Global,
    out: &mut Vec<u8>,
    format: Format,
    labels: &[Label],
) -> Result<(), AllocError>
    ensures { OnOk result (out.new.items ≡ out.old.items ++ text_of format (target_lines format labels.now)) }
{
    let Some(_) = labels.split_first() else {
        return Ok(());
    };
    push_target_front(out, format)?;
    let mut text = Vec::new(alloc);
    push_labels(&mut text, labels)?;
    push_line(out, "target_info", "", text.as_slice(), 1u64)?;
    Ok(())
}

/// Appends what says what the resource is.
fn push_target(
    alloc: Global,
    out: &mut Vec<u8>,
    format: Format,
    resource: &Resource,
) -> Result<(), AllocError>
    ensures { OnOk result (out.new.items ≡ out.old.items ++ text_of format (target_lines format (resource_labels resource.now.attributes))) }
{
    let labels = resource_labels(alloc, resource)?;
    push_target_labels(alloc, out, format, labels.as_slice())
}

/// Appends the end of a text.
fn push_end(out: &mut Vec<u8>, format: Format) -> Result<(), AllocError>
    ensures { OnOk result (out.new.items ≡ out.old.items ++ text_of format (end_lines format)) }
{
    match format {
        Format::Prometheus => Ok(()),
        Format::OpenMetrics => push_finish(out),
    }
}

/// Appends the text of a collection. Returns how many series it leaves out, modulo 2^64.
#[tactic(auto, using(crate::proofs::SeriesLemmas::text_of_append))]
fn push_collection(
    alloc: Global,
    settings: Settings,
    out: &mut Vec<u8>,
    collected: &ResourceMetrics,
    groups: &[Group],
) -> Result<u64, AllocError>
    requires { groups.now ≡ groups_of (all_members collected.now) }
    ensures text { OnOk result (out.new.items ≡ out.old.items ++ text_of settings.format (lines_of settings collected.now)) }
    ensures doubled { IfOk result (λ count. count ≡ doubled_points settings collected.now % 2 ^ 64) }
{
    push_target(alloc, out, settings.format, collected.resource())?;
    let count = push_groups(alloc, settings, out, groups)?;
    push_end(out, settings.format)?;
    Ok(count)
}

/// Returns the text of a collection, and what it leaves out: no point is left out that isn't counted. The text has no
/// moments, and in OpenMetrics no UNIT lines and no `_created` samples; it has the sum of a histogram only if one is kept,
/// its values are unsigned and no bound is below 0. Refused only for want of memory.
///
/// It takes a time that grows with the number of points and the number of metrics.
pub fn exposition_of(
    alloc: Global,
    settings: Settings,
    collected: &ResourceMetrics,
) -> Result<Exposition, AllocError>
    ensures text { IfOk result (λ e. e.text.items ≡ text_of settings.format (lines_of settings collected.now)) }
    ensures left_out { IfOk result (λ e. e.left_out ≡ left_out_of settings collected.now) }
    ensures reads_back { IfOk result (λ e. read e.text.items ≡ Some (lines_of settings collected.now)) }
    ensures points { IfOk result (λ e. option_map read_points (read e.text.items) ≡ Some (all_read settings collected.now)) }
{
    says_lines();
    says_points();
    let groups = grouped(alloc, collected)?;
    let mut text = Vec::new(alloc);
    let doubled = push_collection(
        alloc,
        settings,
        &mut text,
        collected,
        groups.list.as_slice(),
    )?;
    let left_out = LeftOut {
        delta: delta_points(collected),
        conflicting: groups.conflicting,
        doubled,
    };
    Ok(Exposition { text, left_out })
}
