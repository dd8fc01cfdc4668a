//! Rows of one stream, on its table and on its windows.

ghost use Rattle.std.specs.Prelude.{◌≡◌, false, [], ◌∷◌};
ghost use Rattle.otel_model_stream.specs.Sets.{over_set};
ghost use Rattle.otel_model_stream.specs.Entries.{new_table};
ghost use Rattle.otel_model_stream.specs.Events.{Collect, Delta};
ghost use Rattle.otel_model_stream.specs.Folds.{Last, LastValue, Sum, Total, clear_fold, fold_of};
ghost use Rattle.otel_model_stream.specs.Laws.{IsForgotten};
ghost use Rattle.otel_model_stream.specs.Machine.{begin};
ghost use Rattle.otel_model_stream.specs.Observed.{less};
ghost use Rattle.otel_model_stream.specs.Windows.{first};
ghost use Rattle.otel_model_rows.specs.StreamRows.{AreShown, add, amount, sum, x1, y1};

/// Histograms, places, values and handles of one stream, and what its map knows.
pub fn one_stream()
    ensures row_4 { AreShown Sum Delta 1 (add x1 1 ∷ Collect ∷ add y1 2 ∷ Collect ∷ add y1 4 ∷ Collect ∷ [])
        ((sum x1 1 ∷ []) ∷ (sum over_set 2 ∷ []) ∷ (sum y1 4 ∷ []) ∷ []) }
{}

/// Words on folds, totals, differences, and points as data.
pub fn folds()
    ensures lessened { less 3 5 ≡ 18446744073709551614 }
{}

/// Words on entries, a table, a map, and the machine of a stream.
pub fn tables()
    ensures begun { begin Sum ≡ record { table = new_table (Total 0); live = [] } }
{}

/// Words on windows.
pub fn windows()
    ensures firsts { first ≡ record { sets = []; uncounted = false; held = [] } }
{}

/// Statements of laws of one stream.
pub fn laws()
    ensures forgotten { IsForgotten → clear_fold (fold_of LastValue (amount 4 ∷ amount 11 ∷ [])) ≡ Last 0 }
{}
