//! What a build demands of a reader: streams, each named by its identity.

ghost use Rattle.std.specs.Prelude.{◌≡◌};

use crate::instrument::InstrumentKind;
use otel_common::keys::Key;
use otel_common::laws::copied_scope;
use otel_common::lists::Items;
use otel_common::metrics::Aggregation;
use otel_common::scopes::InstrumentationScope;
use otel_common::strings::StringValue;
use std::alloc::AllocError;

/// What makes two demands name the same stream of a reader (Metrics SDK, "Duplicate instrument registration").
#[derive(PartialEq, Eq, Hash)]
pub struct Identity {
    /// The scope of the meter.
    pub scope: InstrumentationScope,
    /// The kind of the instrument.
    pub kind: InstrumentKind,
    /// Whether its values are of type `i64`; otherwise they are of type `u64`.
    pub signed: bool,
    /// What the stream is for; empty if no description was given.
    pub description: StringValue,
    /// The unit of its values; empty if none was given.
    pub unit: StringValue,
    /// The name, with its ASCII letters in lower case.
    pub name: StringValue,
}

impl Drop for Identity {
    /// A function of its own, so that no proof about who lets one go looks into it.
    fn drop(self) {
        let Identity {
            scope: _scope,
            kind: _,
            signed: _,
            description: _description,
            unit: _unit,
            name: _name,
        } = self;
    }
}

/// A stream that is demanded of a reader (Metrics SDK, "Stream configuration"). The first demand of an identity decides
/// the other fields.
pub struct Demand {
    /// The identity, by which the streams of a reader are told apart.
    pub identity: Identity,
    /// The name, as collections show it.
    pub spelling: StringValue,
    /// What the stream keeps of its records.
    pub aggregation: Aggregation,
    /// The attribute keys that are kept; all of them if there is no list.
    pub allow: Option<Items<Key>>,
    /// How many sets of attributes have points of their own.
    pub limit: usize,
}

impl Drop for Demand {
    /// A function of its own, so that no proof about who lets one go looks into it.
    fn drop(self) {
        let Demand {
            identity: _identity,
            spelling: _spelling,
            aggregation: _aggregation,
            allow: _allow,
            limit: _,
        } = self;
    }
}

impl Clone for Identity {
    ghost is_clone = { λ s t. t ≡ s };

    fn clone(&self) -> Result<Identity, AllocError> {
        copied_scope();
        Ok(Identity {
            scope: self.scope.clone()?,
            kind: self.kind,
            signed: self.signed,
            description: self.description.clone()?,
            unit: self.unit.clone()?,
            name: self.name.clone()?,
        })
    }
}
