//! The metrics provider as definitions: the machine that a program is, what is read off the list of
//! calls alone, and the laws that join the two. No working code.
#![tactic(auto)]

ghost use Rattle.otel_model.specs.Batches.{BatchesGroup, FirstsOfBeginning, RefusalsStay};
ghost use Rattle.otel_model.specs.Books.{EachCallIsBooked, EachRunIsBooked};
ghost use Rattle.otel_model.specs.Builds.{AlikeFeedTheSame};
ghost use Rattle.otel_model.specs.Given.{AllIsGivenOrPending, EachGivesOrHolds};
ghost use Rattle.otel_model.specs.Lawful.{EachCallKeepsLawful, EachRunKeepsLawful, HandlesAreOfFeeds, IsLawfulAtFirst, LawfulBalances, NextIsUnheld, ObservableIsUnheld};
ghost use Rattle.otel_model.specs.Laws.{AreAnsweredFew, AreAnsweredTotals, AreCollectionsOfHistories, AreCountedOfHistories, AreFeedsApart, AreFeedsOfBuilds, AreFeedsStreams, ArePendingPoints, ArePlacesOfHistories, ArePointsFew, AreReadersKept, AreReadersKeptAtOnce, AreStreamsApart, AreStreamsOfBuilds, IsAccepted, IsAllAnswered, IsAllShown, IsAsOnlyReader, IsAsOnlyReaderFromAny, IsBalanceKept, IsConserved, IsExportedTotal, IsRecordedTotal};
ghost use Rattle.otel_model.specs.Orders.{AreDifferences, BindsInAnyOrder, ObservationsInAnyOrder, RecordsInAnyOrder};
ghost use Rattle.otel_model.specs.Places.{SeriesStayPlaced};
ghost use Rattle.otel_model.specs.Resources.{GivenOneByOne, GivenValuesWin, MergesAreCanonical, OthersValuesWin, OwnValuesWin, UrlsMergeFromTheLeft, UrlsMergeFromTheRight};
ghost use Rattle.otel_model.specs.Showing.{BindsByNumber, CollectsAfterObservations, HandlesByNumber, ObservationsByNumber, RecordsByNumber, UnheldRests};

/// For every list of calls each reader is answered as if it were the only one.
pub fn is_alone()
    ensures only { IsAsOnlyReader }
    ensures from_any { IsAsOnlyReaderFromAny }
{}

/// For every list of calls each reader's streams, places and collections are those of the calls made,
/// and what is pending is what its window shows.
pub fn agrees()
    ensures streams { AreStreamsOfBuilds }
    ensures feeds { AreFeedsOfBuilds }
    ensures places { ArePlacesOfHistories }
    ensures counted { AreCountedOfHistories }
    ensures collections { AreCollectionsOfHistories }
    ensures pending { ArePendingPoints }
{}

/// For every list of calls nothing that was recorded is lost.
pub fn conserves()
    ensures recorded { IsRecordedTotal }
    ensures exported { IsExportedTotal }
    ensures conserved { IsConserved }
    ensures balanced { IsBalanceKept }
    ensures totals { AreAnsweredTotals }
    ensures all_shown { IsAllAnswered }
    ensures few { AreAnsweredFew }
    ensures all_now { IsAllShown }
    ensures few_now { ArePointsFew }
{}

/// Whatever is called, no reader is lost, and none changes what it answered.
pub fn keeps_readers()
    ensures run { AreReadersKept }
    ensures step { AreReadersKeptAtOnce }
{}

/// The order in which attributes are given changes nothing.
pub fn orders()
    ensures records { RecordsInAnyOrder }
    ensures binds { BindsInAnyOrder }
    ensures observations { ObservationsInAnyOrder }
{}

/// What observed sums show in a delta stream.
pub fn differs()
    ensures only { AreDifferences }
{}

/// Two builds that agree in what makes a stream the same feed the same streams.
pub fn shares()
    ensures only { AlikeFeedTheSame }
{}

/// The other's values win a merge, which is not associative on URLs.
pub fn merges()
    ensures values { OthersValuesWin }
    ensures canonical { MergesAreCanonical }
    ensures left { UrlsMergeFromTheLeft }
    ensures right { UrlsMergeFromTheRight }
{}

/// Attributes that a resource builder is given win over its own, except those that are given with a URL. Of several
/// values given for a key the last counts.
pub fn gives()
    ensures given { GivenValuesWin }
    ensures own { OwnValuesWin }
    ensures one_by_one { GivenOneByOne }
{}

/// What a synchronous stream recorded is what the instruments that feed it accepted.
pub fn accounts()
    ensures only { IsAccepted }
{}

/// Under each heading, what was recorded is what the reader was given in its replies and what is pending.
pub fn hands_over()
    ensures headings { AllIsGivenOrPending }
    ensures streams { EachGivesOrHolds }
{}

/// A reader's streams have identities of their own, and an instrument feeds each of its streams once.
pub fn feeds()
    ensures streams_apart { AreStreamsApart }
    ensures feeds_apart { AreFeedsApart }
    ensures feeds_streams { AreFeedsStreams }
{}

/// What a provider keeps from call to call, whatever its views: its balances.
pub fn keeps()
    ensures first { IsLawfulAtFirst }
    ensures call { EachCallKeepsLawful }
    ensures run { EachRunKeepsLawful }
    ensures balances { LawfulBalances }
{}

/// In a lawful provider a stream does not have a live handle whose instrument does not feed it, nor one of the
/// number that the next bind gives, and it has none at all where an observable instrument feeds it.
pub fn live_handles()
    ensures feeds { HandlesAreOfFeeds }
    ensures next { NextIsUnheld }
    ensures observable { ObservableIsUnheld }
{}

/// What all instruments together accepted grows by each record that is answered by `Done`, and by nothing else.
pub fn books()
    ensures call { EachCallIsBooked }
    ensures run { EachRunIsBooked }
{}

/// What a program that names streams by number must do to agree with the machine.
pub fn numbers()
    ensures records { RecordsByNumber }
    ensures binds { BindsByNumber }
    ensures unheld { UnheldRests }
    ensures handles { HandlesByNumber }
    ensures observations { ObservationsByNumber }
    ensures collects { CollectsAfterObservations }
{}

/// Once there is a record of a series it has its places, for good, and each further one is a write alone.
pub fn keeps_places()
    ensures only { SeriesStayPlaced }
{}

/// Records can be made as a batch, series by series: their places in order of first records, then what is written in
/// order of last records. A batch changes no record's fault, and the series of a beginning of it come first.
pub fn groups()
    ensures batches { BatchesGroup }
    ensures refusals { RefusalsStay }
    ensures beginnings { FirstsOfBeginning }
{}
