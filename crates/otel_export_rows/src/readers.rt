//! Rows of readers.

ghost use Rattle.std.specs.Prelude.{◌≡◌, [], None, codes};
ghost use Rattle.otel_otlp.specs.Reading.{collection_of};
ghost use Rattle.otel_prometheus.specs.Reading.{read};
ghost use Rattle.otel_prometheus.specs.Shown.{target_points};
ghost use Rattle.json.specs.Json.{null};

/// What an exposition says, and texts that are none.
pub fn expositions()
    ensures no_text_ends_in_mid_line { read (codes "a 1") ≡ None }
{}

/// What points an exposition has, and which it is to have.
pub fn points()
    ensures no_target_without_labels { target_points [] ≡ [] }
{}

/// What a request says, and texts that are none.
pub fn requests()
    ensures nothing_in_null { collection_of null ≡ None }
{}
