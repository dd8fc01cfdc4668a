//! The sets of attributes under which records are kept.

ghost use Rattle.std.specs.Prelude.{◌≡◌, IfOk, IsOkUnless};
ghost use Rattle.otel_common.specs.Equality.{set_eq};
ghost use Rattle.otel_model_stream.specs.Sets.{over_set};

use otel_common::attributes::{KeyValue, Value};
use otel_common::faults::Fault;
use otel_common::keys::Key;
use otel_common::lists::SharedItems;
use std::alloc::Global;

/// The key of the one attribute of the overflow entry.
const OVERFLOW: &str = "otel.metric.overflow";

/// The set of the overflow entry: `otel.metric.overflow` is `true`.
pub fn overflow_set(alloc: Global) -> Result<SharedItems<KeyValue>, Fault>
    ensures set { IfOk result (λ s. s ≡ over_set) }
    ensures only_memory { IsOkUnless result Fault.OutOfMemory }
{
    let key = Key::new(alloc, OVERFLOW)?;
    Ok(SharedItems::new(vec![in alloc; KeyValue::new(key, Value::Bool(true))]?)?)
}

/// Whether a list is the set of the overflow entry.
pub fn is_overflow(list: &[KeyValue]) -> bool
    ensures { result ≡ set_eq list.now over_set }
{
    match list {
        [one] => one.key.as_str() == OVERFLOW && matches!(one.value, Value::Bool(true)),
        _ => false,
    }
}
