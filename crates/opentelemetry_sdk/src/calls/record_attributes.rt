//! Lists of attributes that records have.

ghost use Rattle.std.specs.Prelude.{◌≡◌, IfOk, IsOkUnless, List};
ghost use Rattle.opentelemetry_sdk.specs.Lent.{owned_list, shared_list};

use otel_common::attributes::KeyValue;
use otel_common::faults::Fault;
use otel_common::lists::{Items, SharedItems};
use std::alloc::AllocError;
use std::marker::Model;
use std::mem::replace;

/// A list by who owns it.
#[derive(Debug, Drop)]
pub(crate) enum Owned {
    /// A list without attributes.
    Empty,
    /// A list with one owner.
    Alone(Items<KeyValue>),
    /// A list with several owners.
    Shared(SharedItems<KeyValue>),
    /// A list that is never freed.
    Lasting(&'static SharedItems<KeyValue>),
}

/// The attributes of a record, in any order: a list of its own, made by `into`, or one that it shares with the series of
/// a worker.
#[derive(Debug)]
pub struct RecordAttributes {
    owned: Owned,
}

impl Drop for RecordAttributes {
    /// A function of its own, so that no proof about who lets one go looks into it.
    fn drop(self) {
        let RecordAttributes { owned: _owned } = self;
    }
}

impl Model for RecordAttributes {
    ghost use Rattle.std.specs.Prelude.{List};
    ghost use Rattle.otel_common.specs.declared.attributes.KeyValue.{KeyValue};
    ghost use Rattle.opentelemetry_sdk.specs.Lent.{owned_list};

    ghost Value = { List KeyValue };

    ghost view = { λ a. owned_list a.owned };
}

impl RecordAttributes {
    /// The attributes, in the order in which they were given.
    pub fn as_slice(&self) -> &[KeyValue]
        ensures { result.now ≡ self.now }
    {
        match &self.owned {
            Owned::Empty => &[],
            Owned::Alone(items) => items.as_slice(),
            Owned::Shared(items) => items.as_slice(),
            Owned::Lasting(items) => items.as_slice(),
        }
    }
}

impl From<Vec<KeyValue>> for RecordAttributes {
    ghost from_gives = { λ v a. a ≡ v.items };

    fn from(items: Vec<KeyValue>) -> RecordAttributes {
        RecordAttributes {
            owned: Owned::Alone(items.into()),
        }
    }
}

/// A copy of a list that is shared is another owner.
impl Clone for RecordAttributes {
    ghost is_clone = { λ a b. b ≡ a };

    fn clone(&self) -> Result<RecordAttributes, AllocError> {
        let owned = match &self.owned {
            Owned::Empty => Owned::Empty,
            Owned::Alone(items) => Owned::Alone(items.clone()?),
            Owned::Shared(items) => Owned::Shared(items.share()?),
            Owned::Lasting(items) => Owned::Lasting(*items),
        };
        Ok(RecordAttributes { owned })
    }
}

/// A list that can be shared out without memory.
#[derive(Drop)]
pub(crate) enum SharedAttributes {
    /// A list without attributes.
    Empty,
    /// A list whose owners are counted. It stands in a box, so that it can be left to last.
    Counted(Box<SharedItems<KeyValue>>),
    /// A list that is never freed, since it has had as many owners as are counted.
    Lasting(&'static SharedItems<KeyValue>),
}

impl SharedAttributes {
    /// Another owner of the list. Takes no memory: once 2^63 - 1 owners are counted, the list is left to last.
    pub(crate) fn share(&mut self) -> RecordAttributes
        ensures shared { result ≡ shared_list self.old }
        ensures kept { shared_list self.new ≡ shared_list self.old }
    {
        let (list, owned) = match replace(self, SharedAttributes::Empty) {
            SharedAttributes::Empty => (SharedAttributes::Empty, Owned::Empty),
            SharedAttributes::Counted(items) => match items.share() {
                Ok(shared) => (SharedAttributes::Counted(items), Owned::Shared(shared)),
                Err(_) => {
                    let items: &'static SharedItems<KeyValue> = Box::leak(items);
                    (SharedAttributes::Lasting(items), Owned::Lasting(items))
                }
            },
            SharedAttributes::Lasting(items) => {
                (SharedAttributes::Lasting(items), Owned::Lasting(items))
            }
        };
        *self = list;
        RecordAttributes { owned }
    }

    /// A list to share out, and another owner of it.
    pub(crate) fn new(
        items: Vec<KeyValue>,
    ) -> Result<(SharedItems<KeyValue>, SharedAttributes), Fault>
        ensures list { IfOk result (λ r. (r.0 ≡ items.items) × (shared_list r.1 ≡ items.items)) }
        ensures only_memory { IsOkUnless result Fault.OutOfMemory }
    {
        let alloc = *items.allocator();
        let list = SharedItems::new(items)?;
        let boxed = Box::new(alloc, list.share()?)?;
        Ok((list, SharedAttributes::Counted(boxed)))
    }
}
