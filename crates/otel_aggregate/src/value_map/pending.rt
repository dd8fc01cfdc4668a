//! What is prepared in a map, and what is made for it in advance.

ghost use Rattle.std.specs.Prelude.{◌≡◌, ◌&&◌, Bool, true, false, drop, None, Some, IfSome, IfOk, IsOk, OnOk, IsOkUnless, IsTrue, is_some};
ghost use Rattle.std.specs.List.{AllByRecursion as EachOf};
ghost use Rattle.std.specs.Option.{IfNone, option_copied};
ghost use Rattle.otel_common.specs.Canonical.{canon};
ghost use Rattle.otel_common.specs.Equality.{set_eq};
ghost use Rattle.otel_model_stream.specs.Entries.{has};
ghost use Rattle.otel_model_stream.specs.Sets.{allowed_part, over_set};
ghost use Rattle.otel_aggregate.specs.value_map.Slots.{kept_of, new_kept};
ghost use Rattle.otel_aggregate.specs.value_map.Contents.{IsPlan, IsPlanAt, IsPlanPast, IsSound, NamesEntry, is_new, is_next_placed, is_there, leads, next_of, pending_in, sets_named};
ghost use Rattle.otel_aggregate.specs.value_map.Keyed.{Slotted};
ghost use Rattle.otel_aggregate.specs.value_map.Numbers.{Numbers, set_named};
ghost use Rattle.otel_aggregate.specs.declared.value_map.pending.Pending.TheVariants.{Nothing, At};

use crate::aggregators::aggregator::Aggregator;
use crate::sets::allowed_keys::AllowedKeys;
use crate::sets::forms::is_form_of;
use crate::sets::references::{few_references, many_references};
use crate::value_map::hashed_key::{HashedSet, OwnedSet};
use crate::value_map::sets::overflow_set;
use crate::value_map::slots::Slot;
use crate::value_map::table::Table;
use otel_common::attributes::KeyValue;
use otel_common::faults::Fault;
use std::alloc::Global;
use std::mem::replace;

/// What is prepared: nothing, a record or bind, or several records.
#[derive(Drop)]
pub enum Pending {
    /// Nothing is prepared.
    Nothing,
    /// A record or bind that uses the entry with this number.
    At(usize),
    /// A record or bind that uses an entry which is to be made for this set, and to which perhaps another list is to lead
    /// too.
    New(OwnedSet, Option<OwnedSet>),
    /// Records that use the entries with these numbers, the last one first.
    Several(Vec<usize>),
}

impl Pending {
    /// Gives up what is prepared, if there is anything.
    #[inline(always)]
    pub fn give_up(&mut self)
        ensures { self.new ≡ Nothing }
    {
        if !matches!(self, Pending::Nothing) {
            self.clear();
        }
    }

    /// Does what `give_up` does, out of line, as mostly nothing is prepared.
    #[inline(never)]
    fn clear(&mut self)
        ensures { self.new ≡ Nothing }
    {
        *self = Pending::Nothing;
    }

    /// Takes out the numbers of the entries that the prepared records use; there are none if an entry is still to be made or
    /// if memory is refused. In either case nothing is prepared any more.
    #[inline(always)]
    pub fn take_numbers(&mut self, alloc: Global) -> Option<Vec<usize>>
        ensures taken { self.new ≡ Nothing }
        ensures numbers { (ns : Numbers) → IfSome result (λ numbers. sets_named ns numbers.items ≡ pending_in ns self.old) }
        ensures sound { (t : Slotted) (few room : Bool) → IsSound t few room self.old → IfSome result (λ numbers. EachOf (NamesEntry t) numbers.items) }
    {
        match replace(self, Pending::Nothing) {
            Pending::Nothing => Some(Vec::new(alloc)),
            Pending::At(number) => {
                let mut numbers = Vec::new(alloc);
                numbers.push(number).ok()?;
                Some(numbers)
            }
            Pending::New(_, _) => None,
            Pending::Several(numbers) => Some(numbers),
        }
    }

    /// Takes out the number of the entry that the next record uses, if that entry is there.
    pub fn take_next(&mut self) -> Option<usize>
        ensures there { (t : Slotted) (few room : Bool) → IsSound t few room self.old → IfSome result (λ n. NamesEntry t n × (next_of (pending_in t.numbers self.old) ≡ Some (set_named n t.numbers))) }
        ensures some { (t : Slotted) (few room : Bool) → IsSound t few room self.old → is_next_placed (pending_in t.numbers self.old) t.table.entries ≡ true → is_some result ≡ true }
        ensures later { (t : Slotted) (few room : Bool) → IsSound t few room self.old → IsSound t few room self.new }
        ensures rest { (ns : Numbers) → is_some result ≡ true → pending_in ns self.new ≡ drop 1 (pending_in ns self.old) }
        ensures made { is_some result ≡ true → is_new self.new ≡ false }
    {
        match self {
            Pending::At(number) => {
                let number = *number;
                *self = Pending::Nothing;
                Some(number)
            }
            Pending::Several(numbers) => numbers.pop(),
            _ => None,
        }
    }
}

/// The number of the entry to which a list, as given, leads. Takes no memory.
#[inline(always)]
pub fn led_to<A: Aggregator>(table: &Table<A>, list: &HashedSet) -> Option<usize>
    ensures plan { IfSome result (IsPlanAt table.now list.now.key) }
    ensures unled { IfNone result (leads list.now.key table.now ≡ false) }
{
    if list.is_empty() {
        return Some(table.none());
    }
    table.find(list)
}

/// The number of the entry that a record of what is kept of the attributes uses, if that is there: the one to which their
/// canonical form leads, which isn't made, or else past the limit the overflow entry. `few` says whether the number of
/// counted entries is below the limit. It goes over all sets of the table, and takes no memory.
pub fn form_led_to<A: Aggregator>(
    table: &Table<A>,
    few: bool,
    allow: Option<&AllowedKeys>,
    attributes: &[KeyValue],
) -> Option<usize>
    ensures plan { IfSome result (λ n. IsPlan table.now few (allowed_part (option_copied allow.entry) attributes.now) (At n)) }
    ensures unled { IfNone result (leads (allowed_part (option_copied allow.entry) attributes.now) table.now ≡ false) }
    ensures there { IfNone result (is_there few (canon (allowed_part (option_copied allow.entry) attributes.now)) table.now.table.entries ≡ false) }
{
    if is_form_of(&[], allow, attributes) {
        return Some(table.none());
    }
    let found = table.find_form(allow, attributes);
    if few || found.is_some() {
        return found;
    }
    table.overflow()
}

/// What a record is to do past the limit with a list whose set has no entry: it uses the overflow entry. Nothing is copied,
/// and once that entry is there it takes no memory.
fn plan_past<A: Aggregator>(alloc: Global, table: &Table<A>) -> Result<Pending, Fault>
    ensures plan { IfOk result (IsPlanPast table.now) }
    ensures there { IsTrue (has over_set table.now.table.entries) → IsOk result }
    ensures only_memory { IsOkUnless result Fault.OutOfMemory }
{
    if let Some(number) = table.overflow() {
        return Ok(Pending::At(number));
    }
    let set = OwnedSet::new(table.hasher(), overflow_set(alloc)?);
    Ok(Pending::New(set, None))
}

/// What a record is to do with a list that, as given, leads to no entry and isn't canonical. `few` says whether the
/// number of counted entries is below the limit. Looks the canonical form up, which is handed in too.
fn plan_sorted<A: Aggregator>(
    alloc: Global,
    table: &Table<A>,
    few: bool,
    list: &HashedSet,
    sorted: &HashedSet,
) -> Result<Pending, Fault>
    requires unled { leads list.now.key table.now ≡ false }
    requires other { set_eq (canon list.now.key) list.now.key ≡ false }
    requires sorted { sorted.now.key ≡ canon list.now.key }
    ensures plan { IfOk result (IsPlan table.now few list.now.key) }
    ensures there { IsTrue (is_there few (canon list.now.key) table.now.table.entries) → IsOk result }
    ensures only_memory { IsOkUnless result Fault.OutOfMemory }
{
    if let Some(number) = table.find_set(sorted) {
        return Ok(Pending::At(number));
    }
    if !few {
        return plan_past(alloc, table);
    }
    let set = sorted.copied(alloc)?;
    let key = list.copied(alloc)?;
    Ok(Pending::New(set, Some(key)))
}

/// What a record is to do with a list that, as given, leads to no entry: with what is kept of these attributes. `few`
/// says whether the number of counted entries is below the limit.
///
/// Looks the canonical form up if that is another list, by references that are sorted. For up to 16 keys this takes no
/// memory; if memory for more is refused, the canonical form is looked for without being made.
#[inline(never)]
pub fn plan<A: Aggregator>(
    alloc: Global,
    table: &Table<A>,
    few: bool,
    list: &HashedSet,
    allow: Option<&AllowedKeys>,
    attributes: &[KeyValue],
) -> Result<Pending, Fault>
    requires list { list.now.key ≡ allowed_part (option_copied allow) attributes.now }
    requires unled { leads list.now.key table.now ≡ false }
    ensures plan { IfOk result (IsPlan table.now few list.now.key) }
    ensures there { IsTrue (is_there few (canon list.now.key) table.now.table.entries) → IsOk result }
    ensures only_memory { IsOkUnless result Fault.OutOfMemory }
{
    if list.is_canonical() {
        if !few {
            return plan_past(alloc, table);
        }
        // Tells the prover that the set has no number.
        table.law_of_numbers();
        let own = list.copied(alloc)?;
        return Ok(Pending::New(own, None));
    }
    if let Some(references) = few_references(allow, attributes) {
        let sorted = HashedSet::referenced(table.hasher(), references.as_slice());
        return plan_sorted(alloc, table, few, list, &sorted);
    }
    match many_references(alloc, allow, attributes) {
        Ok(references) => {
            let sorted = HashedSet::referenced(table.hasher(), references.as_slice());
            plan_sorted(alloc, table, few, list, &sorted)
        }
        Err(fault) => match form_led_to(table, few, allow, attributes) {
            Some(number) => Ok(Pending::At(number)),
            None => Err(fault),
        },
    }
}

/// Makes in advance what a new entry takes: room in the table, and an aggregator.
pub fn make_ready<A: Aggregator>(
    table: &mut Table<A>,
    unused: &mut Option<A>,
    alloc: Global,
    config: &A::InitConfig,
) -> Result<(), Fault>
    requires unused { IfSome unused.old (λ made. A.meaning made ≡ A.empty config.now) }
    ensures table { table.new.table ≡ table.old.table }
    ensures numbers { table.new.numbers ≡ table.old.numbers }
    ensures aliases { table.new.aliases ≡ table.old.aliases }
    ensures empty { IfSome unused.new (λ made. A.meaning made ≡ A.empty config.now) }
    ensures ready { OnOk result ((is_some unused.new && table.new.room) ≡ true) }
    ensures only_memory { IsOkUnless result Fault.OutOfMemory }
{
    table.make_room()?;
    if unused.is_none() {
        *unused = Some(A::create(alloc, config)?);
    }
    Ok(())
}

/// Takes the aggregator that was made in advance, as a slot for a new entry.
pub fn take_slot<A: Aggregator>(
    unused: &mut Option<A>,
    config: &A::InitConfig,
    counted: bool,
    lasting: bool,
) -> Slot<A>
    requires empty { IfSome unused.old (λ made. A.meaning made ≡ A.empty config.now) }
    requires made { is_some unused.old ≡ true }
    ensures slot { kept_of A.meaning result ≡ new_kept (A.empty config.now) counted lasting }
    ensures taken { unused.new ≡ None }
{
    Slot::new(unused.take().unwrap(), counted, lasting)
}
