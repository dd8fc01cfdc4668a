//! What holds of all texts.

ghost use Rattle.std.specs.Prelude.{◌≡◌, ◌+◌, ◌<◌, ◌≤◌, ◌^◌, ℕ, ℤ, List, [], Some, length, option_map};
ghost use Rattle.otel_data.specs.declared.collections.ResourceMetrics.{ResourceMetrics};
ghost use Rattle.otel_prometheus.specs.Lines.{IsText, text_of};
ghost use Rattle.otel_prometheus.specs.Reading.{read};
ghost use Rattle.otel_prometheus.specs.Samples.{Pair};
ghost use Rattle.otel_prometheus.specs.declared.text.formats.Format.{Format};
ghost use Rattle.otel_prometheus.specs.Collections.{family_series, lines_of, doubled_points};
ghost use Rattle.otel_prometheus.specs.Consumers.{read_points};
ghost use Rattle.otel_prometheus.specs.Families.{families, delta_points, conflicting_points};
ghost use Rattle.otel_prometheus.specs.Laws.{AreNew, AreDistinct, StandApart, Rise, all_points};
ghost use Rattle.otel_prometheus.specs.Points.{buckets};
ghost use Rattle.otel_prometheus.specs.Series.{kept};
ghost use Rattle.otel_prometheus.specs.Shown.{points_of, all_read};
ghost use Rattle.otel_prometheus.specs.Totals.{total};
ghost use Rattle.otel_prometheus.specs.declared.headings.Heading.{Heading};
ghost use Rattle.otel_prometheus.specs.declared.settings.Settings.{Settings};

use crate::text::laws::reads_back;

/// The text of a collection reads as its lines, whatever its names, its help texts and its attributes are.
///
/// This function does nothing: who needs the law calls it first.
pub fn says_lines()
    ensures spelled { (s : Settings) (c : ResourceMetrics) → IsText (lines_of s c) }
    ensures reads_back { (s : Settings) (c : ResourceMetrics) → read (text_of s.format (lines_of s c)) ≡ Some (lines_of s c) }
{
    reads_back();
}

/// No family has the name of another, nor one that is another's name with what its type adds to it in names of samples.
///
/// This function does nothing: who needs the law calls it first.
pub fn names_stand_apart()
    ensures { (c : ResourceMetrics) → StandApart [] (families c) }
{}

/// No two series of a family that are shown have the same labels.
///
/// This function does nothing: who needs the law calls it first.
pub fn series_are_distinct()
    ensures { (s : Settings) (c : ResourceMetrics) (h : Heading) → AreNew [] (kept [] (family_series s c h)) }
{}

/// The buckets of a point rise up to its count, if no more values are counted in its buckets than it has.
///
/// This function does nothing: who needs the law calls it first.
pub fn buckets_rise()
    ensures { (f : Format) (name : List ℕ) (labels : List Pair) (bounds : List ℤ) (counts : List ℕ) (count : ℕ) → total (λ n. n) counts ≤ count → count < 2 ^ 64 → Rise 0 (buckets f name labels 0 bounds counts) count }
{}

/// Who reads the lines of a collection, and so its text, has its points: each with its name, its labels, and its value
/// or its buckets, its sum and its count. The reader is defined apart, and looks at nothing but lines.
///
/// This function does nothing: who needs the law calls it first.
pub fn says_points()
    ensures lines { (s : Settings) (c : ResourceMetrics) → read_points (lines_of s c) ≡ all_read s c }
    ensures text { (s : Settings) (c : ResourceMetrics) → option_map read_points (read (text_of s.format (lines_of s c))) ≡ Some (all_read s c) }
{
    says_lines();
}

/// No two points that who reads a text has are one series to it: their names or their labels differ.
///
/// This function does nothing: who needs the law calls it first.
pub fn points_are_distinct()
    ensures { (s : Settings) (c : ResourceMetrics) → AreDistinct [] (read_points (lines_of s c)) }
{}

/// Every point is one that is read or is counted as left out, once.
///
/// This function does nothing: who needs the law calls it first.
pub fn nothing_is_lost()
    ensures { (s : Settings) (c : ResourceMetrics) → (length (points_of s c) + doubled_points s c) + (delta_points c + conflicting_points c) ≡ all_points c }
{}
