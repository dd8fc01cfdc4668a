//! What is kept of the records of each set, in slots.

ghost use Rattle.std.specs.Prelude.{◌≡◌, ◌<◌, ◌-◌, ◌^◌, cond, nat_eq, false, IfSome, None, Some};
ghost use Rattle.std.specs.Option.{option_map};
ghost use Rattle.slab.specs.Slab.{get, HasRoomFor};
ghost use Rattle.otel_aggregate.specs.Any.{aggregate_of, samples_of};
ghost use Rattle.otel_aggregate.specs.AnyKept.{fold_in};
ghost use Rattle.otel_aggregate.specs.value_map.Slots.{SameLook, look_in, kept_of, with_slot, at_slot, written, written_each, held, released, forgotten, left_of};

use crate::aggregators::aggregator::Aggregator;
use crate::any_aggregator::AnyAggregator;
use crate::settings::AnySettings;
use otel_data::numbers::NumberValue;
use slab::Slab;

/// What is kept of the records of one set.
#[derive(Drop)]
pub struct Slot<A> {
    pub aggregator: A,
    /// Whether the limit counts it.
    pub counted: bool,
    /// Whether it was updated since it was made or last reset.
    pub updated: bool,
    /// Whether evictions always spare it: true for the empty set's slot and the overflow entry's.
    pub lasting: bool,
    /// How many live handles hold it.
    pub handles: u64,
}

impl<A: Aggregator> Slot<A> {
    /// Makes a slot without records.
    pub fn new(aggregator: A, counted: bool, lasting: bool) -> Slot<A>
        ensures { result ≡ record { aggregator = aggregator; counted = counted; updated = false; lasting = lasting; handles = 0 } }
    {
        Slot {
            aggregator,
            counted,
            updated: false,
            lasting,
            handles: 0,
        }
    }

    /// Forgets the records.
    fn forget(&mut self)
        ensures { kept_of A.meaning self.new ≡ forgotten (kept_of A.meaning self.old) }
    {
        self.updated = false;
        self.aggregator.reset();
    }

    /// Forgets the records if evictions spare the slot, and returns whether they do: it was updated since it was made or
    /// last reset, a live handle holds it, or it lasts.
    fn settle(&mut self) -> bool
        ensures { cond result (Some (kept_of A.meaning self.new)) None ≡ left_of (Some (kept_of A.meaning self.old)) }
    {
        if self.updated || self.handles > 0 || self.lasting {
            self.forget();
            return true;
        }
        false
    }
}

/// Fills a vacant slot and returns its number.
pub fn fill<A: Aggregator>(slots: &mut Slab<Slot<A>>, slot: Slot<A>) -> usize
    requires { HasRoomFor slots.old 1 }
    ensures vacant { look_in A.meaning slots.old result ≡ None }
    ensures look { SameLook (look_in A.meaning slots.new) (with_slot result (kept_of A.meaning slot) (look_in A.meaning slots.old)) }
{
    slots.insert_reserved(slot)
}

/// Takes a record into the slot with this number, without a look-up.
#[inline(always)]
pub fn touch<A: Aggregator>(slots: &mut Slab<Slot<A>>, number: usize, value: A::PreComputedValue)
    ensures look { SameLook (look_in A.meaning slots.new) (at_slot number (written (A.sample value)) (look_in A.meaning slots.old)) }
{
    if let Some(slot) = slots.get_mut(number) {
        slot.updated = true;
        slot.aggregator.update(value);
    }
}

/// Takes the records of these values into the slot with this number, one after another, without a look-up.
pub(crate) fn touch_each(
    slots: &mut Slab<Slot<AnyAggregator>>,
    number: usize,
    settings: &AnySettings,
    values: &[NumberValue],
)
    ensures look { SameLook (look_in fold_in slots.new) (at_slot number (written_each (samples_of (aggregate_of settings.now) values.now)) (look_in fold_in slots.old)) }
{
    if values.is_empty() {
        return;
    }
    if let Some(slot) = slots.get_mut(number) {
        slot.updated = true;
        slot.aggregator.update_each(settings, values);
    }
}

/// Adds a live handle to the slot with this number.
pub fn hold<A: Aggregator>(slots: &mut Slab<Slot<A>>, number: usize)
    requires { IfSome (get slots.old number) (λ slot. slot.handles < 2 ^ 64 - 1) }
    ensures look { SameLook (look_in A.meaning slots.new) (at_slot number held (look_in A.meaning slots.old)) }
{
    if let Some(slot) = slots.get_mut(number) {
        slot.handles += 1;
    }
}

/// Takes a live handle away from the slot with this number.
pub fn release<A: Aggregator>(slots: &mut Slab<Slot<A>>, number: usize)
    ensures look { SameLook (look_in A.meaning slots.new) (at_slot number released (look_in A.meaning slots.old)) }
{
    if let Some(slot) = slots.get_mut(number) {
        slot.handles = slot.handles.saturating_sub(1);
    }
}

/// Forgets the records in the slots that evictions spare, and frees the others.
pub fn settle<A: Aggregator>(slots: &mut Slab<Slot<A>>)
    ensures look { SameLook (look_in A.meaning slots.new) (λ n. left_of (look_in A.meaning slots.old n)) }
{
    slots.retain(|_number, slot| slot.settle());
}

/// Forgets the records in the slot with this number, and frees all others.
pub fn clear_others<A: Aggregator>(slots: &mut Slab<Slot<A>>, number: usize)
    ensures look { SameLook (look_in A.meaning slots.new) (λ n. cond (nat_eq n number) (option_map forgotten (look_in A.meaning slots.old n)) None) }
{
    slots.retain(|other, slot| {
        if other != number {
            return false;
        }
        slot.forget();
        true
    });
}
