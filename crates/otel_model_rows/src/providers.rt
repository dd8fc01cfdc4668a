//! Rows of a whole provider, on its machine and read off the calls.

ghost use Rattle.std.specs.Prelude.{◌≡◌, ◌+◌, [], ◌∷◌, ◌++◌, map, Some};
ghost use Rattle.otel_model_stream.specs.Folds.{wrap};
ghost use Rattle.otel_model_stream.specs.Sets.{over_set};
ghost use Rattle.otel_model.specs.Calls.{Counter, Gauge, ObservableCounter, UpDownCounter, Bind, Build, Collect, Record, RecordBound};
ghost use Rattle.otel_model.specs.Demands.{Answer, Cumulative, Delta, Drop};
ghost use Rattle.otel_model_rows.specs.Rows.{AloneShows, HasMoments, Shows, a, about, add, b, but_for, cumulative, cumulative_sum, default_of, delta, delta_sum, last_values, limit_1, low_memory, observe, on, one, plain_sum, u64, x1, y1};

/// Places, overflow, eviction, canonical sets and allow-lists.
pub fn places()
    ensures row_22 { AloneShows limit_1 delta (on (about Counter a) (add 1 [] ∷ add 2 x1 ∷ add 4 y1 ∷ Collect 0 200 [] ∷ []))
        (one a (delta_sum (([], 1) ∷ (x1, 2) ∷ (over_set, 4) ∷ [])) ∷ []) }
{}

/// Histograms, sums, last values, differences, several readers, moments, and the order of faults.
pub fn sums()
    ensures row_6 { Shows [] (delta ∷ delta ∷ []) 0 delta
        (on (about Counter a) (add 3 [] ∷ Collect 0 200 [] ∷ add 4 [] ∷ Collect 1 300 [] ∷ Collect 0 400 [] ∷ []))
        (one a (delta_sum (([], 3) ∷ [])) ∷ one a (delta_sum (([], 4) ∷ [])) ∷ []) }
{}

/// Views, fates, and the limits and aggregations of readers.
pub fn views()
    ensures row_46 { Shows [] (but_for Counter (default_of Drop) cumulative ∷ cumulative ∷ []) 1 cumulative
        (on (about Counter a) (add 5 [] ∷ Collect 0 200 [] ∷ Collect 1 300 [] ∷ []))
        (one a (cumulative_sum (([], 5) ∷ [])) ∷ []) }
{}

/// What tells streams apart, and which demand decides.
pub fn identities()
    ensures two_names { AloneShows [] cumulative
        (on (about Counter a) (Build (Some 0) (about Counter b) 100 ∷ add 1 [] ∷ Record 1 (u64 2) [] ∷ Collect 0 200 [] ∷ []))
        ((one a (cumulative_sum (([], 1) ∷ [])) ++ one b (cumulative_sum (([], 2) ∷ []))) ∷ []) }
{}

/// Each kind of instrument with each temporality and aggregation.
pub fn kinds()
    ensures delta_answers { map (λ (x : Answer). x.temporality) delta
        ≡ Delta ∷ Cumulative ∷ Delta ∷ Delta ∷ Cumulative ∷ Delta ∷ Delta ∷ [] }
{}

/// Bound handles, their places, and number types through them.
pub fn handles()
    ensures counter_bound { AloneShows [] low_memory
        (on (about UpDownCounter a) (Bind 0 x1 ∷ Collect 0 200 [] ∷ RecordBound 0 (u64 2) ∷ Collect 0 300 [] ∷ []))
        (one a (plain_sum ((x1, 0) ∷ [])) ∷ one a (plain_sum ((x1, 2) ∷ [])) ∷ []) }
{}

/// Whole collections: resource, scopes, headings, moments and points.
pub fn headings()
    ensures drained_start { HasMoments [] (delta ∷ []) 0 delta
        (on (about ObservableCounter a) (Collect 0 200 [] ∷ Collect 0 300 (observe 0 1 [] ∷ []) ∷ []))
        ([] ∷ ((200, 300) ∷ []) ∷ []) }
{}

/// Places where a definition is easily misread.
pub fn edges()
    ensures bound_gauge { AloneShows [] cumulative (on (about Gauge a) (Bind 0 x1 ∷ Collect 0 200 [] ∷ []))
        (one a (last_values ((x1, 0) ∷ [])) ∷ []) }
{}

/// What was recorded, what a reader was given in its replies, and what is pending.
pub fn replies()
    ensures of_signed_wrapped { wrap 55340232221128654845 ≡ wrap (18446744073709551614 + 18446744073709551615) }
{}
