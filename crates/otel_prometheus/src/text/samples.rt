//! Samples: lines of a name, labels and a value.

ghost use Rattle.std.specs.Prelude.{◌≡◌, ◌++◌, OnOk};
ghost use Rattle.std.specs.Fmt.{signed_decimal};
ghost use Rattle.otel_prometheus.specs.Samples.{line_text};

use crate::text::numbers::Number;
use std::alloc::AllocError;

/// Appends the line of a sample whose labels are spelled already. Its name is given in two parts. Refused only for want
/// of memory.
pub fn push_line<T: Number>(
    out: &mut Vec<u8>,
    name: &str,
    end: &str,
    labels: &[u8],
    value: T,
) -> Result<(), AllocError>
    ensures { OnOk result (out.new.items ≡ out.old.items ++ line_text (name.now ++ end.now) labels.now (signed_decimal (T.integer value))) }
{
    out.extend_from_slice(name.as_bytes())?;
    out.extend_from_slice(end.as_bytes())?;
    out.extend_from_slice(labels)?;
    out.extend_from_slice(b" ")?;
    value.push_to(out)?;
    out.extend_from_slice(b"\n")
}
