//! Views ready to use: instruments are selected by name, kind, unit and scope.

ghost use Rattle.std.specs.Prelude.{◌≡◌, IfOk, IsOkUnless, Some};
ghost use Rattle.std.specs.Option.{option_map};
ghost use Rattle.otel_stream.specs.Answers.{kind_eq};
ghost use Rattle.otel_stream.specs.Selectors.{any_instrument, is_met, is_named, is_text, selects, selects_scope};

use crate::instrument::{Instrument, InstrumentKind};
use crate::patterns::is_match;
use crate::stream::Stream;
use crate::view::View;
use otel_common::faults::Fault;
use otel_common::scopes::InstrumentationScope;
use otel_common::strings::StringValue;
use std::alloc::Global;

/// Which names are selected. Names are compared byte by byte.
#[derive(Debug)]
#[derive(Drop)]
pub enum NameCriterion {
    /// This name; here `*` and `?` stand for themselves.
    Exact(StringValue),
    /// The names that begin with this text, in which `*` and `?` stand for themselves; with an empty text, all names.
    Prefix(StringValue),
    /// The names that fit this pattern as a whole: `*` stands for any text, the empty one too, `?` for exactly one byte,
    /// and each other byte for itself.
    Pattern(StringValue),
}

impl NameCriterion {
    /// Whether this name is selected.
    fn selects(&self, name: &StringValue) -> bool
        ensures { result ≡ is_named name.now self.now }
    {
        match self {
            NameCriterion::Exact(wanted) => *name == *wanted,
            NameCriterion::Prefix(prefix) => {
                let name = name.as_str().as_bytes();
                name.starts_with(prefix.as_str().as_bytes())
            }
            NameCriterion::Pattern(pattern) => {
                is_match(pattern.as_str().as_bytes(), name.as_str().as_bytes())
            }
        }
    }
}

/// Which instruments a view is for: those that meet all criteria that are given (Metrics SDK, "Instrument selection
/// criteria"). Texts are compared byte by byte.
#[derive(Debug)]
pub struct InstrumentSelector {
    /// What their names are.
    pub name: Option<NameCriterion>,
    /// Their kind.
    pub kind: Option<InstrumentKind>,
    /// Their unit; empty for instruments without one.
    pub unit: Option<StringValue>,
    /// The name of their scope.
    pub scope_name: Option<StringValue>,
    /// The version of their scope. A scope without a version has none of these.
    pub scope_version: Option<StringValue>,
    /// The schema URL of their scope. A scope without a schema URL has none of these.
    pub scope_schema_url: Option<StringValue>,
}

impl Drop for InstrumentSelector {
    /// A function of its own, so that no proof about who lets one go looks into it.
    fn drop(self) {
        let InstrumentSelector {
            name: _name,
            kind: _,
            unit: _unit,
            scope_name: _scope_name,
            scope_version: _scope_version,
            scope_schema_url: _scope_schema_url,
        } = self;
    }
}

impl InstrumentSelector {
    /// Selects all instruments: no criterion is given. Takes no memory.
    pub fn any() -> InstrumentSelector
        ensures { result ≡ any_instrument }
    {
        InstrumentSelector {
            name: None,
            kind: None,
            unit: None,
            scope_name: None,
            scope_version: None,
            scope_schema_url: None,
        }
    }

    /// Asks for a name that fits this pattern, which is copied, in place of a name asked for before: `*` stands for any
    /// text, `?` for exactly one byte, and each other byte for itself. Refused only for want of memory.
    pub fn with_name(self, alloc: Global, pattern: &str) -> Result<InstrumentSelector, Fault>
        ensures made { IfOk result (λ made. made ≡ record self { name = Some (NameCriterion.Pattern pattern.now) }) }
        ensures only_memory { IsOkUnless result Fault.OutOfMemory }
    {
        let pattern = StringValue::new(alloc, pattern)?;
        let mut selector = self;
        selector.name = Some(NameCriterion::Pattern(pattern));
        Ok(selector)
    }

    /// Asks for this kind, in place of one asked for before. Takes no memory.
    pub fn with_kind(self, kind: InstrumentKind) -> InstrumentSelector
        ensures { result ≡ record self { kind = Some kind } }
    {
        let mut selector = self;
        selector.kind = Some(kind);
        selector
    }

    /// Asks for this unit, which is copied, in place of one asked for before; an empty one is that of instruments
    /// without a unit. Refused only for want of memory.
    pub fn with_unit(self, alloc: Global, unit: &str) -> Result<InstrumentSelector, Fault>
        ensures made { IfOk result (λ made. made ≡ record self { unit = Some unit.now }) }
        ensures only_memory { IsOkUnless result Fault.OutOfMemory }
    {
        let unit = StringValue::new(alloc, unit)?;
        let mut selector = self;
        selector.unit = Some(unit);
        Ok(selector)
    }

    /// Asks for a scope of this name, which is copied, in place of one asked for before. Refused only for want of
    /// memory.
    pub fn with_scope_name(self, alloc: Global, name: &str) -> Result<InstrumentSelector, Fault>
        ensures made { IfOk result (λ made. made ≡ record self { scope_name = Some name.now }) }
        ensures only_memory { IsOkUnless result Fault.OutOfMemory }
    {
        let name = StringValue::new(alloc, name)?;
        let mut selector = self;
        selector.scope_name = Some(name);
        Ok(selector)
    }

    /// Asks for a scope of this version, which is copied, in place of one asked for before. Refused only for want of
    /// memory.
    pub fn with_scope_version(
        self,
        alloc: Global,
        version: &str,
    ) -> Result<InstrumentSelector, Fault>
        ensures made { IfOk result (λ made. made ≡ record self { scope_version = Some version.now }) }
        ensures only_memory { IsOkUnless result Fault.OutOfMemory }
    {
        let version = StringValue::new(alloc, version)?;
        let mut selector = self;
        selector.scope_version = Some(version);
        Ok(selector)
    }

    /// Asks for a scope of this schema URL, which is copied, in place of one asked for before. Refused only for want of
    /// memory.
    pub fn with_scope_schema_url(
        self,
        alloc: Global,
        url: &str,
    ) -> Result<InstrumentSelector, Fault>
        ensures made { IfOk result (λ made. made ≡ record self { scope_schema_url = Some url.now }) }
        ensures only_memory { IsOkUnless result Fault.OutOfMemory }
    {
        let url = StringValue::new(alloc, url)?;
        let mut selector = self;
        selector.scope_schema_url = Some(url);
        Ok(selector)
    }

    /// Whether the instrument meets all criteria. Takes no memory, and for a pattern a number of steps in the order of the
    /// product of its length and the name's at most.
    pub fn selects(&self, instrument: &Instrument) -> bool
        ensures { result ≡ selects self.now instrument.now }
    {
        self.selects_name(&instrument.name)
            && self.selects_kind(instrument.kind)
            && is_wanted(&self.unit, Some(instrument.unit()))
            && self.selects_scope(&instrument.scope)
    }

    fn selects_name(&self, name: &StringValue) -> bool
        ensures { result ≡ is_met (is_named name.now) self.now.name }
    {
        match &self.name {
            Some(wanted) => wanted.selects(name),
            None => true,
        }
    }

    fn selects_kind(&self, kind: InstrumentKind) -> bool
        ensures { result ≡ is_met (kind_eq kind) self.now.kind }
    {
        match self.kind {
            Some(wanted) => kind == wanted,
            None => true,
        }
    }

    fn selects_scope(&self, scope: &InstrumentationScope) -> bool
        ensures { result ≡ selects_scope self.now scope.now }
    {
        is_wanted(&self.scope_name, Some(scope.name()))
            && is_wanted(&self.scope_version, scope.version())
            && is_wanted(&self.scope_schema_url, scope.schema_url())
    }
}

/// Whether there is a text, the one that is wanted; or none is wanted.
fn is_wanted(wanted: &Option<StringValue>, text: Option<&str>) -> bool
    ensures { result ≡ is_met (is_text (option_map (λ text. text.now) text.entry)) wanted.now }
{
    match (wanted, text) {
        (None, _) => true,
        (Some(wanted), Some(text)) => text == wanted.as_str(),
        (Some(_), None) => false,
    }
}

/// A view that gives all instruments that it selects the same settings of a stream (Metrics SDK, "View"). A match takes
/// memory for a copy of the settings.
#[derive(Drop)]
pub struct SelectorView {
    /// The instruments that the view is for.
    pub selector: InstrumentSelector,
    /// The settings of their streams.
    pub stream: Stream,
}

impl SelectorView {
    /// A view of the instruments that the selector is for. Takes no memory.
    pub fn new(selector: InstrumentSelector, stream: Stream) -> SelectorView
        ensures { result ≡ record { selector = selector; stream = stream } }
    {
        SelectorView { selector, stream }
    }

    /// A view of the instruments of this name, which is copied; `*` and `?` stand for themselves. Refused only for want of
    /// memory.
    pub fn of_name(alloc: Global, name: &str, stream: Stream) -> Result<SelectorView, Fault>
        ensures made { IfOk result (λ view. view ≡ record { selector = record any_instrument { name = Some (NameCriterion.Exact name.now) }; stream = stream }) }
        ensures only_memory { IsOkUnless result Fault.OutOfMemory }
    {
        let name = StringValue::new(alloc, name)?;
        let mut selector = InstrumentSelector::any();
        selector.name = Some(NameCriterion::Exact(name));
        Ok(SelectorView::new(selector, stream))
    }

    /// A view of the instruments whose name begins with this text, which is copied; `*` and `?` stand for themselves. Refused
    /// only for want of memory.
    pub fn of_prefix(alloc: Global, prefix: &str, stream: Stream) -> Result<SelectorView, Fault>
        ensures made { IfOk result (λ view. view ≡ record { selector = record any_instrument { name = Some (NameCriterion.Prefix prefix.now) }; stream = stream }) }
        ensures only_memory { IsOkUnless result Fault.OutOfMemory }
    {
        let prefix = StringValue::new(alloc, prefix)?;
        let mut selector = InstrumentSelector::any();
        selector.name = Some(NameCriterion::Prefix(prefix));
        Ok(SelectorView::new(selector, stream))
    }

    /// A view of the instruments of this kind. Takes no memory.
    pub fn of_kind(kind: InstrumentKind, stream: Stream) -> SelectorView
        ensures { result ≡ record { selector = record any_instrument { kind = Some kind }; stream = stream } }
    {
        SelectorView::new(InstrumentSelector::any().with_kind(kind), stream)
    }
}

impl View for SelectorView {
    ghost use Rattle.otel_stream.specs.Selectors.{stream_for};

    ghost answer = { stream_for };

    fn match_inst(&self, instrument: &Instrument) -> Result<Option<Stream>, Fault> {
        if self.selector.selects(instrument) {
            Ok(Some(self.stream.clone()?))
        } else {
            Ok(None)
        }
    }
}
