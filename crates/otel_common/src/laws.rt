//! Laws: a copy equals its source, and values are equal exactly if their contents are.
//!
//! These functions do nothing. A function whose contract needs the law of copying or comparing a type calls that type's
//! function first.

ghost use Rattle.std.specs.Prelude.{◌≡◌, ℕ, List};
ghost use Rattle.std.specs.Bool.{Decides};
ghost use Rattle.otel_common.specs.declared.attributes.Array.{Array};
ghost use Rattle.otel_common.specs.declared.attributes.KeyValue.{KeyValue};
ghost use Rattle.otel_common.specs.declared.attributes.Value.{Value};
ghost use Rattle.otel_common.specs.declared.metrics.Aggregation.{Aggregation};
ghost use Rattle.otel_common.specs.declared.metrics.Temporality.{Temporality};
ghost use Rattle.otel_common.specs.declared.metrics.Temporality.TheVariants.{Cumulative};
ghost use Rattle.otel_common.specs.declared.resource.Resource.{Resource};
ghost use Rattle.otel_common.specs.declared.scopes.InstrumentationScope.{InstrumentationScope};

use crate::attributes::{Array, KeyValue, Value};
use crate::keys::Key;
use crate::metrics::{Aggregation, Temporality};
use crate::resource::Resource;
use crate::scopes::InstrumentationScope;

/// A copy of a key, an array, a value or an attribute equals its source.
pub fn copied_attributes()
    ensures key { (x y : List ℕ) → ⟦<Key as Clone>⟧.is_clone x y → y ≡ x }
    ensures array { (x y : Array) → ⟦<Array as Clone>⟧.is_clone x y → y ≡ x }
    ensures value { (x y : Value) → ⟦<Value as Clone>⟧.is_clone x y → y ≡ x }
    ensures attribute { (x y : KeyValue) → ⟦<KeyValue as Clone>⟧.is_clone x y → y ≡ x }
{}

/// A copy of a scope equals its source.
pub fn copied_scope()
    ensures scope { (x y : InstrumentationScope) → ⟦<InstrumentationScope as Clone>⟧.is_clone x y → y ≡ x }
{}

/// Two keys, arrays, values or attributes are equal exactly if their contents are.
pub fn equal_attributes()
    ensures key { (x y : List ℕ) → Decides (⟦<Key as PartialEq>⟧.eq x y) (x ≡ y) }
    ensures array { (x y : Array) → Decides (⟦<Array as PartialEq>⟧.eq x y) (x ≡ y) }
    ensures value { (x y : Value) → Decides (⟦<Value as PartialEq>⟧.eq x y) (x ≡ y) }
    ensures attribute { (x y : KeyValue) → Decides (⟦<KeyValue as PartialEq>⟧.eq x y) (x ≡ y) }
{}

/// Two scopes are equal exactly if their four parts are.
pub fn equal_scopes()
    ensures scope { (x y : InstrumentationScope) → Decides (⟦<InstrumentationScope as PartialEq>⟧.eq x y) (x ≡ y) }
{}

/// A copy of a resource equals its source, and two resources are equal exactly if their attributes and schema URLs are.
pub fn resource_laws()
    ensures copy { (x y : Resource) → ⟦<Resource as Clone>⟧.is_clone x y → y ≡ x }
    ensures equal { (x y : Resource) → Decides (⟦<Resource as PartialEq>⟧.eq x y) (x ≡ y) }
{
    copied_attributes();
    equal_attributes();
}

/// Two temporalities are equal exactly if they are the same, a copy of a temporality equals its source, and the default
/// is cumulative.
pub fn temporality_laws()
    ensures equal { (x y : Temporality) → Decides (⟦<Temporality as PartialEq>⟧.eq x y) (x ≡ y) }
    ensures copy { (x y : Temporality) → ⟦<Temporality as Clone>⟧.is_clone x y → y ≡ x }
    ensures default { (x : Temporality) → ⟦<Temporality as Default>⟧.is_default x → x ≡ Cumulative }
{}

/// A copy of an aggregation equals its source.
pub fn copied_aggregation()
    ensures { (x y : Aggregation) → ⟦<Aggregation as Clone>⟧.is_clone x y → y ≡ x }
{}

/// Two aggregations are equal exactly if they are the same, with the same bounds and the same choice about minimum and
/// maximum.
pub fn equal_aggregations()
    ensures { (x y : Aggregation) → Decides (⟦<Aggregation as PartialEq>⟧.eq x y) (x ≡ y) }
{}
