//! Settings of a text: its form, and whether scopes have labels.

ghost use Rattle.std.specs.Prelude.{◌≡◌, true};

use crate::text::formats::Format;

/// How a collection is shown.
#[derive(Clone, Copy, Debug, PartialEq, Eq)]
pub struct Settings {
    /// The form of the text.
    pub format: Format,
    /// Whether each sample has the parts of its scope as labels: `otel_scope_name`, `otel_scope_version`,
    /// `otel_scope_schema_url`, and `otel_scope_KEY` for each attribute.
    pub has_scope_labels: bool,
}

impl Settings {
    /// The settings of a text of this form, with labels for scopes.
    pub fn new(format: Format) -> Settings
        ensures { result ≡ record { format = format; has_scope_labels = true } }
    {
        Settings {
            format,
            has_scope_labels: true,
        }
    }
}
