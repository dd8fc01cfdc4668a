//! One stream of metrics, as definitions: the table of entries that a program keeps, and the history
//! of the stream cut into windows, with the laws that join the two. No working code.
#![tactic(auto)]

ghost use Rattle.std.specs.Prelude.{◌≡◌};
ghost use Rattle.otel_model_stream.specs.Folds.{Aggregate, clear_fold, empty_of};
ghost use Rattle.otel_model_stream.specs.Laws.{AreBucketsCounted, AreCountedOfWindows, AreKeysFew, ArePlacesOfWindows, ArePointsFew, ArePointsNow, ArePointsOfWindows, IsAllShown, IsClearedAlike, IsConserved, IsCountedOnceAdmitted, IsDrained, IsDraining, IsEmptyKnown, IsEvicted, IsFoldOfList, IsFoldedByOneMore, IsForgotten, IsHandleOfPlace, IsHeld, IsIdle, IsKnownBefore, IsKnownBySet, IsKnownOnceBound, IsKnownOnceMeasured, IsKnownWhilePlaced, IsListedAtFirst, IsListedOnceBound, IsListedOnceDrained, IsListedOnceEvicted, IsListedOnceMeasured, IsListedOnceUnbound, IsListedOnceUpdated, IsMeasured, IsReadonly, IsResetting, IsStillKnown, IsUnbound, IsUpdatedBound};

/// For every list of events the entries are the places of the window so far, those counted are the
/// ones that it counts, each collection has the points of its window, and one now would too.
pub fn agrees()
    ensures places { ArePlacesOfWindows }
    ensures counted { AreCountedOfWindows }
    ensures points { ArePointsOfWindows }
    ensures now { ArePointsNow }
{}

/// Nothing that was recorded is lost, modulo 2^64, and there are few points.
pub fn conserves()
    ensures delta { IsConserved }
    ensures cumulative { IsAllShown }
    ensures few { ArePointsFew }
{}

/// Folding measurements one by one gives the fold of their whole list, and bucket counts add up to the count.
pub fn folds()
    ensures list { IsFoldOfList }
    ensures one_more { IsFoldedByOneMore }
    ensures buckets { AreBucketsCounted }
{}

/// Clearing a fold forgets all its measurements.
pub fn clears()
    ensures nothing { (σ : Aggregate) → clear_fold (empty_of σ) ≡ empty_of σ }
    ensures list { IsForgotten }
    ensures steps { IsClearedAlike }
{}

/// Each event changes the table as the bounded map changes, and a collection shows the points that the map shows.
pub fn maps()
    ensures record { IsMeasured }
    ensures bind { IsHeld }
    ensures handle { IsHandleOfPlace }
    ensures through { IsUpdatedBound }
    ensures end { IsUnbound }
    ensures idle { IsIdle }
    ensures delta { IsEvicted }
    ensures drained { IsDrained }
    ensures shown_readonly { IsReadonly }
    ensures shown_resetting { IsResetting }
    ensures shown_draining { IsDraining }
{}

/// What a map knows: a list that admitted a set, and that set, as long as its entry stays.
pub fn knowing()
    ensures admitted { IsCountedOnceAdmitted }
    ensures measured { IsKnownOnceMeasured }
    ensures bound { IsKnownOnceBound }
    ensures still { IsStillKnown }
    ensures placed { IsKnownWhilePlaced }
    ensures before { IsKnownBefore }
    ensures drained { IsEmptyKnown }
    ensures by_set { IsKnownBySet }
    ensures few { AreKeysFew }
{}

/// The set of each given list that a map knows has an entry, and no two given lists have the same set.
pub fn listing()
    ensures first { IsListedAtFirst }
    ensures measured { IsListedOnceMeasured }
    ensures bound { IsListedOnceBound }
    ensures updated { IsListedOnceUpdated }
    ensures unbound { IsListedOnceUnbound }
    ensures evicted { IsListedOnceEvicted }
    ensures drained { IsListedOnceDrained }
{}
