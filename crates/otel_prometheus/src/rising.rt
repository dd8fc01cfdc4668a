//! Labels that stand as their attributes do, since the names of both rise.

ghost use Rattle.std.specs.Prelude.{◌≡◌, ◌++◌, [], ◌∷◌, ◌≤◌, ℕ, List, length, take, drop, IsTrue, IfOk, OnOk, map};
ghost use Rattle.otel_prometheus.specs.Names.{name_of};
ghost use Rattle.otel_prometheus.specs.Samples.{Pair, escaped, is_label_byte, label_text, labels_text};
ghost use Rattle.otel_prometheus.specs.Labels.{is_empty, own_name, point_labels, scope_labels, without_empty};
ghost use Rattle.otel_prometheus.specs.Rising.{rises, count_below, place_of_scope, comma_texts, value_front, front_text, front_texts};
ghost use Rattle.otel_prometheus.specs.Values.{value_text};

use crate::labels::{drop_empty, own_name, point_labels, scope_labels};
use crate::settings::Settings;
use crate::text::labels::{Label, push_label, push_labels, push_value};
use crate::values::value_text;
use itoa::Buffer;
use otel_common::attributes::{KeyValue, Value};
use otel_common::keys::Key;
use otel_common::scopes::InstrumentationScope;
use otel_common::strings::StringValue;
use std::alloc::{AllocError, Global};

/// Whether each name is greater than the one before it, and the first than these bytes.
fn rises(before: &[u8], names: &[StringValue]) -> bool
    ensures { result ≡ rises before.now names.now }
{
    let mut last = before;
    for name in names {
        let bytes = name.as_str().as_bytes();
        if !last.cmp(bytes).is_lt() {
            return false;
        }
        last = bytes;
    }
    true
}

/// How many names, from the front, are less than those of the labels of a scope, which all begin with `otel_scope_`.
fn count_below(names: &[StringValue]) -> usize
    ensures { result ≡ count_below names.now }
{
    let mut count = 0;
    for name in names {
        let bytes = name.as_str().as_bytes();
        if !bytes.cmp(b"otel_scope_".as_slice()).is_lt() {
            return count;
        }
        count += 1;
    }
    count
}

/// How many names come before those of a scope's labels; none if the names don't rise, or one stands between these, that
/// is before the byte behind `_`.
#[tactic(auto, using(crate::proofs::RisingLemmas::count_within))]
fn place_of_scope(names: &[StringValue]) -> Option<usize>
    ensures { result ≡ place_of_scope names.now }
{
    let count = count_below(names);
    let (low, high) = names.split_at(count);
    if rises(b"", low) && rises(b"otel_scope`", high) {
        return Some(count);
    }
    None
}

/// Adds a text at the end.
fn push(texts: &mut Vec<StringValue>, text: StringValue) -> Result<(), AllocError>
    ensures { OnOk result (texts.new.items ≡ texts.old.items ++ text ∷ []) }
{
    match texts.push(text) {
        Ok(()) => Ok(()),
        Err(_) => Err(AllocError),
    }
}

/// Returns the keys of attributes.
fn keys_of(alloc: Global, attributes: &[KeyValue]) -> Result<Vec<Key>, AllocError>
    ensures { IfOk result (λ keys. keys.items ≡ map (λ a. a.key) attributes.now) }
{
    let mut keys = Vec::with_capacity(alloc, attributes.len())?;
    for attribute in attributes {
        let Ok(()) = keys.push(attribute.key.clone()?) else {
            return Err(AllocError);
        };
    }
    Ok(keys)
}

/// Returns the names of the labels of attributes with these keys.
fn names_of(alloc: Global, keys: &[Key], has_bounds: bool) -> Result<Vec<StringValue>, AllocError>
    ensures { IfOk result (λ names. names.items ≡ map (λ key. own_name has_bounds (name_of is_label_byte key)) keys.now) }
{
    let mut names = Vec::with_capacity(alloc, keys.len())?;
    for key in keys {
        let name = own_name(alloc, key.as_str(), has_bounds)?;
        push(&mut names, StringValue::from(name))?;
    }
    Ok(names)
}

/// Returns what stands in front of the values of labels with these names.
fn fronts_of(alloc: Global, names: &[StringValue]) -> Result<Vec<StringValue>, AllocError>
    ensures { IfOk result (λ fronts. fronts.items ≡ map value_front names.now) }
{
    let mut fronts = Vec::with_capacity(alloc, names.len())?;
    for name in names {
        let mut front = String::from_str(alloc, ",")?;
        front.push_str(name.as_str())?;
        front.push_str("=\"")?;
        push(&mut fronts, StringValue::from(front))?;
    }
    Ok(fronts)
}

/// Appends a value that is no string as that of a label, and the quote behind it.
#[inline(never)]
fn push_other_value(alloc: Global, out: &mut Vec<u8>, value: &Value) -> Result<(), AllocError>
    ensures { OnOk result (out.new.items ≡ out.old.items ++ (escaped (value_text value.now) ++ 34 ∷ [])) }
{
    match value {
        Value::Bool(true) => push_value(out, b"true"),
        Value::Bool(false) => push_value(out, b"false"),
        Value::I64(number) => {
            let mut buffer = Buffer::new();
            push_value(out, buffer.format(*number).as_bytes())
        }
        _ => {
            let text = value_text(alloc, value)?;
            push_value(out, text.as_slice())
        }
    }
}

/// Appends the value of an attribute as that of a label, and the quote behind it.
#[inline(always)]
fn push_own_value(alloc: Global, out: &mut Vec<u8>, value: &Value) -> Result<(), AllocError>
    ensures { OnOk result (out.new.items ≡ out.old.items ++ (escaped (value_text value.now) ++ 34 ∷ [])) }
{
    match value {
        Value::String(text) => push_value(out, text.as_str().as_bytes()),
        _ => push_other_value(alloc, out, value),
    }
}

/// Whether the value is an empty text.
#[inline(always)]
fn is_empty(value: &Value) -> bool
    ensures { result ≡ is_empty (value_text value.now) }
{
    match value {
        Value::String(text) => text.as_str().as_bytes().is_empty(),
        // Of a number that was read is known that it fits in 64 bits, and so that it has digits.
        Value::I64(number) => {
            let _number = *number;
            false
        }
        Value::Bool(_) => false,
        Value::Array(_) => false,
    }
}

/// Appends a label, of which this is what stands in front of its value, unless the value is empty.
#[inline(always)]
fn push_behind_front(
    alloc: Global,
    out: &mut Vec<u8>,
    front: &str,
    value: &Value,
) -> Result<(), AllocError>
    ensures { OnOk result (out.new.items ≡ out.old.items ++ front_text front.now (value_text value.now)) }
{
    if is_empty(value) {
        return Ok(());
    }
    out.extend_from_slice(front.as_bytes())?;
    push_own_value(alloc, out, value)
}

/// Appends labels, of which these are what stands in front of their values, with the values of attributes.
fn push_each(
    alloc: Global,
    out: &mut Vec<u8>,
    fronts: &[StringValue],
    attributes: &[KeyValue],
) -> Result<(), AllocError>
    ensures { OnOk result (out.new.items ≡ out.old.items ++ front_texts fronts.now attributes.now) }
{
    let mut left = attributes;
    for front in fronts {
        let Some((attribute, rest)) = left.split_first() else {
            return Ok(());
        };
        left = rest;
        push_behind_front(alloc, out, front.as_str(), &attribute.value)?;
    }
    Ok(())
}

/// Appends labels, each behind a comma.
fn push_behind_commas(out: &mut Vec<u8>, labels: &[Label]) -> Result<(), AllocError>
    ensures { OnOk result (out.new.items ≡ out.old.items ++ comma_texts labels.now) }
{
    for label in labels {
        out.extend_from_slice(b",")?;
        push_label(out, label.name(), label.value())?;
    }
    Ok(())
}

/// Puts the labels from this place on in braces, each of which stands behind a comma.
fn close(out: &mut Vec<u8>, start: usize) -> Result<(), AllocError>
    ensures { (before : List ℕ) (labels : List Pair) → length before ≡ start → out.old.items ≡ before ++ comma_texts labels → OnOk result (out.new.items ≡ before ++ labels_text labels) }
{
    if out.len() <= start {
        return Ok(());
    }
    out[start] = b'{';
    out.extend_from_slice(b"}")?;
    Ok(())
}

/// Appends labels, of which these are what stands in front of their values, with the values of attributes, and this text
/// behind as many of them.
fn push_around(
    alloc: Global,
    out: &mut Vec<u8>,
    fronts: &[StringValue],
    attributes: &[KeyValue],
    count: usize,
    scope_text: &[u8],
) -> Result<(), AllocError>
    requires within { count ≤ length fronts.now }
    requires same { length fronts.now ≡ length attributes.now }
    ensures { OnOk result (out.new.items ≡ out.old.items ++ (front_texts (take count fronts.now) (take count attributes.now) ++ (scope_text.now ++ front_texts (drop count fronts.now) (drop count attributes.now)))) }
{
    let (low_fronts, high_fronts) = fronts.split_at(count);
    let (low, high) = attributes.split_at(count);
    push_each(alloc, out, low_fronts, low)?;
    out.extend_from_slice(scope_text)?;
    push_each(alloc, out, high_fronts, high)?;
    Ok(())
}

/// The names of the labels of attributes with these keys, and how many of them come before those of a scope's labels.
#[derive(Drop)]
struct Names {
    keys: Vec<Key>,
    has_bounds: bool,
    names: Vec<StringValue>,
    fronts: Vec<StringValue>,
    before_scope: Option<usize>,
    ghost are_names: { names.items ≡ map (λ key. own_name has_bounds (name_of is_label_byte key)) keys.items },
    ghost are_in_front: { fronts.items ≡ map value_front names.items },
    ghost stands_before: { before_scope ≡ place_of_scope names.items },
}

impl Names {
    /// Makes the names of attributes.
    fn of(alloc: Global, attributes: &[KeyValue], has_bounds: bool) -> Result<Names, AllocError>
        ensures keys { IfOk result (λ names. names.keys.items ≡ map (λ a. a.key) attributes.now) }
        ensures bounds { IfOk result (λ names. names.has_bounds ≡ has_bounds) }
    {
        let keys = keys_of(alloc, attributes)?;
        let names = names_of(alloc, keys.as_slice(), has_bounds)?;
        let fronts = fronts_of(alloc, names.as_slice())?;
        let before_scope = place_of_scope(names.as_slice());
        Ok(Names {
            keys,
            has_bounds,
            names,
            fronts,
            before_scope,
        })
    }

    /// Whether these are the names of attributes.
    fn fit(&self, attributes: &[KeyValue], has_bounds: bool) -> bool
        ensures keys { IsTrue result → self.now.keys.items ≡ map (λ a. a.key) attributes.now }
        ensures bounds { IsTrue result → self.now.has_bounds ≡ has_bounds }
    {
        if self.has_bounds != has_bounds {
            return false;
        }
        let mut left = self.keys.as_slice();
        for attribute in attributes {
            let Some((key, rest)) = left.split_first() else {
                return false;
            };
            if *key != attribute.key {
                return false;
            }
            left = rest;
        }
        left.is_empty()
    }

    /// Makes these the names of attributes, if they aren't.
    fn adapt(
        &mut self,
        alloc: Global,
        attributes: &[KeyValue],
        has_bounds: bool,
    ) -> Result<(), AllocError>
        ensures keys { OnOk result (self.new.keys.items ≡ map (λ a. a.key) attributes.now) }
        ensures bounds { OnOk result (self.new.has_bounds ≡ has_bounds) }
    {
        if self.fit(attributes, has_bounds) {
            return Ok(());
        }
        *self = Names::of(alloc, attributes, has_bounds)?;
        Ok(())
    }

    /// Appends the labels of a point with these names in braces, or nothing if there are none.
    fn push_labels(
        &self,
        alloc: Global,
        out: &mut Vec<u8>,
        settings: Settings,
        scope: &InstrumentationScope,
        scope_text: &[u8],
        attributes: &[KeyValue],
    ) -> Result<(), AllocError>
        requires of_scope { scope_text.now ≡ comma_texts (without_empty (scope_labels settings scope.now)) }
        requires keys { self.now.keys.items ≡ map (λ a. a.key) attributes.now }
        ensures { OnOk result (out.new.items ≡ out.old.items ++ labels_text (point_labels settings self.now.has_bounds scope.now attributes.now)) }
    {
        let Some(count) = self.before_scope else {
            let labels = point_labels(alloc, settings, scope, attributes, self.has_bounds)?;
            return push_labels(out, labels.as_slice());
        };
        let start = out.len();
        let fronts = self.fronts.as_slice();
        push_around(alloc, out, fronts, attributes, count, scope_text)?;
        close(out, start)
    }
}

/// What is kept from point to point: the labels of the scope, each behind a comma, and the names of the attributes of
/// the point before.
#[derive(Drop)]
pub(crate) struct Spelling {
    pub(crate) scope_text: Vec<u8>,
    names: Names,
}

impl Spelling {
    /// Makes what the points of a scope have in common.
    pub(crate) fn of_scope(
        alloc: Global,
        settings: Settings,
        scope: &InstrumentationScope,
    ) -> Result<Spelling, AllocError>
        ensures { IfOk result (λ spelling. spelling.scope_text.items ≡ comma_texts (without_empty (scope_labels settings scope.now))) }
    {
        let mut labels = scope_labels(alloc, settings, scope)?;
        drop_empty(&mut labels);
        let mut scope_text = Vec::new(alloc);
        push_behind_commas(&mut scope_text, labels.as_slice())?;
        let names = Names::of(alloc, &[], false)?;
        Ok(Spelling { scope_text, names })
    }

    /// Appends the labels of a point in braces, or nothing if there are none. A histogram has bounds.
    pub(crate) fn push_labels(
        &mut self,
        alloc: Global,
        out: &mut Vec<u8>,
        settings: Settings,
        scope: &InstrumentationScope,
        attributes: &[KeyValue],
        has_bounds: bool,
    ) -> Result<(), AllocError>
        requires of_scope { self.old.scope_text.items ≡ comma_texts (without_empty (scope_labels settings scope.now)) }
        ensures labels { OnOk result (out.new.items ≡ out.old.items ++ labels_text (point_labels settings has_bounds scope.now attributes.now)) }
        ensures of_scope { self.new.scope_text.items ≡ self.old.scope_text.items }
    {
        self.names.adapt(alloc, attributes, has_bounds)?;
        let scope_text = self.scope_text.as_slice();
        let names = &self.names;
        names.push_labels(alloc, out, settings, scope, scope_text, attributes)
    }
}
