//! Labels of samples: names with values of any bytes, in braces and with escapes.

ghost use Rattle.std.specs.Prelude.{◌≡◌, ◌++◌, [], ◌∷◌, OnOk};
ghost use Rattle.std.specs.String.{string_bytes};
ghost use Rattle.otel_prometheus.specs.Samples.{escaped, joined, label_text, labels_text};

use crate::text::escapes::push_escaped;
use std::alloc::AllocError;
use std::marker::Model;

/// A label of a sample: a name, and any bytes as its value. Contracts see it as the pair of its name and its value.
#[derive(Debug, Drop)]
pub struct Label {
    name: String,
    value: Vec<u8>,
}

impl Model for Label {
    ghost use Rattle.std.specs.Prelude.{List, ℕ};
    ghost use Rattle.std.specs.String.{string_bytes};

    ghost Value = { List ℕ × List ℕ };

    ghost view = { λ l. (string_bytes l.name, l.value.items) };
}

impl Label {
    /// Makes a label of its name and its value. Takes no memory.
    pub fn new(name: String, value: Vec<u8>) -> Label
        ensures { result ≡ (string_bytes name, value.items) }
    {
        Label { name, value }
    }

    /// The name.
    pub fn name(&self) -> &str
        ensures { result.now ≡ self.now.0 }
    {
        self.name.as_str()
    }

    /// The bytes of the value.
    pub fn value(&self) -> &[u8]
        ensures { result.now ≡ self.now.1 }
    {
        self.value.as_slice()
    }

    /// Appends a semicolon and another value to the value. For want of memory the value may end with the semicolon.
    pub fn add(&mut self, value: &[u8]) -> Result<(), AllocError>
        ensures { OnOk result (self.new ≡ joined self.old value.now) }
    {
        self.value.extend_from_slice(b";")?;
        self.value.extend_from_slice(value)
    }
}

/// Appends a value of a label, which may be any bytes, and the quote behind it. Refused only for want of memory.
#[inline(always)]
pub fn push_value(out: &mut Vec<u8>, value: &[u8]) -> Result<(), AllocError>
    ensures { OnOk result (out.new.items ≡ out.old.items ++ (escaped value.now ++ 34 ∷ [])) }
{
    push_escaped(out, value)?;
    out.extend_from_slice(b"\"")
}

/// Appends a label of this name and this value, which may be any bytes. Refused only for want of memory.
pub fn push_label(out: &mut Vec<u8>, name: &str, value: &[u8]) -> Result<(), AllocError>
    ensures { OnOk result (out.new.items ≡ out.old.items ++ label_text (name.now, value.now)) }
{
    out.extend_from_slice(name.as_bytes())?;
    out.extend_from_slice(b"=\"")?;
    push_value(out, value)
}

/// Appends labels in braces, or nothing if there are none. Refused only for want of memory.
pub fn push_labels(out: &mut Vec<u8>, labels: &[Label]) -> Result<(), AllocError>
    ensures { OnOk result (out.new.items ≡ out.old.items ++ labels_text labels.now) }
{
    let Some((last, others)) = labels.split_last() else {
        return Ok(());
    };
    push_labels_with(out, others, last.name(), last.value())
}

/// Appends labels and one more label in braces. Refused only for want of memory.
pub fn push_labels_with(
    out: &mut Vec<u8>,
    labels: &[Label],
    name: &str,
    value: &[u8],
) -> Result<(), AllocError>
    ensures { OnOk result (out.new.items ≡ out.old.items ++ labels_text (labels.now ++ (name.now, value.now) ∷ [])) }
{
    out.extend_from_slice(b"{")?;
    for label in labels {
        push_label(out, label.name(), label.value())?;
        out.extend_from_slice(b",")?;
    }
    push_label(out, name, value)?;
    out.extend_from_slice(b"}")
}
