//! Arrays of what is written alike: metrics, points, attributes.

ghost use Rattle.std.specs.Prelude.{◌≡◌, ◌++◌, OnOk};
ghost use Rattle.json.specs.Json.{Json};
ghost use Rattle.json.specs.Tree.{json_tokens};
ghost use Rattle.otel_otlp.specs.Arrays.{array_of};

use json::Writer;
use std::alloc::AllocError;

/// An item of an array.
pub(crate) trait Item {
    /// The item as JSON.
    ghost json: { Self → Json };

    /// Writes the item.
    fn write(&self, out: &mut Writer) -> Result<(), AllocError>
        ensures tokens { OnOk result (out.new.tokens ≡ out.old.tokens ++ json_tokens (json self.now)) }
        ensures before { out.new.before ≡ out.old.before };
}

/// Writes items as an array.
pub(crate) fn write_items<T: Item>(out: &mut Writer, items: &[T]) -> Result<(), AllocError>
    ensures tokens { OnOk result (out.new.tokens ≡ out.old.tokens ++ json_tokens (array_of T.json items.now)) }
    ensures before { out.new.before ≡ out.old.before }
{
    out.begin_array()?;
    for item in items {
        item.write(out)?;
    }
    out.end_array()?;
    Ok(())
}
