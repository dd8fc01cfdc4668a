//! Handles and the numbers of their entries.

ghost use Rattle.std.specs.Prelude.{◌≡◌, ◌<◌, ◌≤◌, ◌^◌, ◌∷◌, [], ◌++◌, length, None, OnOk, nat_eq};
ghost use Rattle.std.specs.Map.{lookup};
ghost use Rattle.indexmap.specs.IndexMap.{shift_remove_entry};
ghost use Rattle.otel_aggregate.specs.Links.{spare};

use crate::value_map::hashing::SetHashBuilder;
use indexmap::IndexMap;
use std::alloc::{AllocError, Global};
use std::marker::Model;

/// The number of each live handle's entry, in order of making.
///
/// A handle that ends leaves its place empty. Empty places are cleared away once they are more than half of those that
/// there is memory for, so the end of a handle takes constant time, amortized.
#[derive(Drop)]
pub struct Links {
    /// The number of each handle's entry, or `None` if the handle has ended.
    places: IndexMap<u64, Option<usize>, SetHashBuilder>,
    /// How many of these handles have ended.
    ended: usize,
}

impl Model for Links {
    ghost use Rattle.indexmap.specs.IndexMap as index;
    ghost use Rattle.otel_aggregate.specs.Links.{Linked, live_links, ArePlaces};

    ghost Value = { Linked };

    ghost view = { λ l. record { entries = live_links l.places.entries; unused = index.spare l.places } };

    ghost invariant = { λ l. ArePlaces l.places.entries l.ended };
}

impl Links {
    /// Makes one without handles, which hashes their numbers with this hasher.
    #[inline(always)]
    pub fn new(alloc: Global, hasher: SetHashBuilder) -> Links
        ensures { result.entries ≡ [] }
    {
        Links {
            places: IndexMap::with_hasher(alloc, hasher),
            ended: 0,
        }
    }

    /// How many handles are live.
    pub fn len(&self) -> usize
        ensures len { result ≡ length self.now.entries }
        ensures small { result < 2 ^ 63 }
    {
        self.places.len() - self.ended
    }
}

/// The number of a handle's entry, or `None` if the handle isn't live. It is out of line, as records find most handles at
/// their places.
#[inline(never)]
#[tactic(auto, using(crate::proofs::PlaceLemmas::number_live))]
pub fn number_in(links: &Links, handle: u64) -> Option<usize>
    ensures { result ≡ lookup (nat_eq handle) links.now.entries }
{
    links.places.get(&handle).copied().flatten()
}

/// The number of a handle's entry, or `None` if the handle isn't live. Looks at this place first, and by the handle's hash
/// only if the place is another's.
#[inline(always)]
pub fn number_near(links: &Links, handle: u64, place: usize) -> Option<usize>
    ensures { result ≡ lookup (nat_eq handle) links.now.entries }
{
    if let Some((found, number)) = links.places.get_index(place) {
        if *found == handle {
            return *number;
        }
    }
    number_in(links, handle)
}

/// Makes room for one more handle.
pub fn make_room(links: &mut Links) -> Result<(), AllocError>
    ensures links { links.new.entries ≡ links.old.entries }
    ensures room { OnOk result (0 < spare links.new) }
    ensures kept { spare links.old ≤ spare links.new }
{
    links.places.reserve(1)
}

/// Adds a handle that isn't live, for which there is room, and returns its place. Goes over the handles made later if one
/// of this number has ended and left its place empty.
///
/// The handle keeps its place until so many others have ended that empty places are cleared away.
pub fn add(links: &mut Links, handle: u64, number: usize) -> usize
    requires absent { lookup (nat_eq handle) links.old.entries ≡ None }
    requires room { 0 < spare links.old }
    ensures links { links.new.entries ≡ links.old.entries ++ (handle, number) ∷ [] }
{
    let had_place = links.places.shift_remove(&handle).is_some();
    links.ended -= had_place as usize;
    let place = links.places.len();
    links.places.insert(handle, Some(number)).unwrap();
    place
}

/// Takes a handle out and keeps the others in order. Clears the empty places away if there are too many. Takes constant
/// time, amortized.
pub fn take_out(links: &mut Links, handle: u64)
    ensures links { links.new.entries ≡ shift_remove_entry (nat_eq handle) links.old.entries }
    ensures room { spare links.old ≤ spare links.new }
{
    end(links, handle);
    if links.ended > links.places.capacity() / 2 {
        links.places.retain(|_handle, place| place.is_some());
        links.ended = 0;
    }
}

/// Leaves the place of a handle empty.
fn end(links: &mut Links, handle: u64)
    ensures links { links.new.entries ≡ shift_remove_entry (nat_eq handle) links.old.entries }
    ensures room { spare links.new ≡ spare links.old }
{
    // Tells the prover that there are fewer than 2^63 places.
    let _ = links.places.len();
    let Some(place) = links.places.get_mut(&handle) else {
        return;
    };
    let was_live = place.take().is_some();
    links.ended += was_live as usize;
}
