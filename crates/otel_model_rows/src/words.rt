//! Rows of single words on a provider: what is checked, said, demanded, refused and left, and what is read off the calls.

ghost use Rattle.std.specs.Prelude.{◌≡◌, ℕ, true, List, [], ◌∷◌, ◌++◌, None, Some, codes};
ghost use Rattle.otel_common.specs.declared.attributes.Value.TheVariants as value;
ghost use Rattle.otel_model_stream.specs.Sets.{over_set};
ghost use Rattle.otel_model.specs.Batches.{firsts};
ghost use Rattle.otel_model.specs.Books.{added_among, bits_of};
ghost use Rattle.otel_model.specs.Builds.{AreAlike};
ghost use Rattle.otel_model.specs.Calls.{Counter, Bind, OutOfMemory, RecordBound, Reply, Unbind, UnknownReader, WrongKind};
ghost use Rattle.otel_model.specs.Checks.{Empty, name_fault};
ghost use Rattle.otel_model.specs.Demands.{Views, default_limit};
ghost use Rattle.otel_model.specs.History.{new_scope};
ghost use Rattle.otel_model.specs.Lawful.{IsBalanced};
ghost use Rattle.otel_model.specs.Laws.{IsAsOnlyReaderFromAny, KeepsReaders};
ghost use Rattle.otel_model.specs.Machine.{new_state, with_meter};
ghost use Rattle.otel_model.specs.Only.{EachAsAlone};
ghost use Rattle.otel_model.specs.Orders.{IsReordered};
ghost use Rattle.otel_model.specs.Refusals.{first_fault};
ghost use Rattle.otel_model.specs.Resources.{empty_resource, merged_url};
ghost use Rattle.otel_model.specs.Showing.{fed_by};
ghost use Rattle.otel_model.specs.State.{State};
ghost use Rattle.otel_model.specs.Steps.{Run, Step, collect_reply, replies_of};
ghost use Rattle.otel_model_rows.specs.Rows.{about, delta, m, u64, x1};
ghost use Rattle.otel_model_rows.specs.RunRows.{calls, replies, start, stream_a, views};

/// Names, units, bounds, settings of streams, and their texts.
pub fn checks()
    ensures row_16 { name_fault [] ≡ Some Empty }
{}

/// What instruments, views and readers say of streams.
pub fn settings()
    ensures overflow_attribute { over_set ≡ record { key = codes "otel.metric.overflow"; value = value.Bool true } ∷ [] }
{}

/// Identities, fates, the demands of a build, and what an instrument feeds.
pub fn demands()
    ensures usual_limit { default_limit ≡ 2000 }
{}

/// Which fault comes where several hold.
pub fn refusals()
    ensures first_faults { first_fault None (Some WrongKind) ≡ Some WrongKind }
{}

/// When memory may be refused, when readers may fail, and what is left for a reader by itself.
pub fn steps()
    ensures end_of_handle { (views : Views) (old new : State) (h : ℕ) → Step views old (Unbind h) (Reply.Refused OutOfMemory) new → ⊥ }
{}

/// What each call leaves of all that a provider keeps.
pub fn states()
    ensures same_meter { with_meter m (m ∷ []) ≡ m ∷ [] }
{}

/// What is read off the calls: meters, builds, histories, moments, collections, totals.
pub fn histories()
    ensures no_new_scope { new_scope (m ∷ []) m ≡ [] }
{}

/// What a collection contains, what instruments accepted, and what collections add up to.
pub fn collections()
    ensures unknown_reader { collect_reply (new_state empty_resource 0 []).shared 200 [] None ≡ Reply.Refused UnknownReader }
{}

/// Statements of laws about runs.
pub fn laws()
    ensures lost_reader { KeepsReaders (new_state empty_resource 0 (delta ∷ [])) (new_state empty_resource 0 []) → ⊥ }
    ensures as_only_from_any { IsAsOnlyReaderFromAny → (old new : State) (given : List Reply) → Run views old calls given new → EachAsAlone views old calls given }
{}

/// Merges of resources, and their builders.
pub fn resources()
    ensures no_url { merged_url None None ≡ None }
{}

/// What instruments accepted, added up over calls.
pub fn books()
    ensures through_handle { added_among bits_of (Bind 0 [] ∷ RecordBound 0 (u64 7) ∷ Unbind 0 ∷ []) (Reply.Handle 0 ∷ Reply.Done ∷ Reply.Done ∷ []) ≡ 7 }
{}

/// Records taken apart into places and what is written, and batches of records.
pub fn batches()
    ensures numbers_first_seen { firsts (1 ∷ 4 ∷ []) (3 ∷ 1 ∷ 3 ∷ 2 ∷ 4 ∷ 3 ∷ []) ≡ 3 ∷ 2 ∷ [] }
{}

/// What a reader was given, and what is pending.
pub fn given()
    ensures replies_of_run { replies_of views start calls ≡ replies }
{}

/// What a lawful provider is, and its balances.
pub fn lawful()
    ensures unbalanced { IsBalanced delta (record stream_a { recorded = 8 }) → ⊥ }
{}

/// Lists in another order, builds that are alike, and differences.
pub fn orders()
    ensures key_twice { IsReordered (x1 ++ x1) (x1 ++ x1) → ⊥ }
    ensures not_good { AreAlike [] (record { scope = Some m; about = about Counter [] }) (record { scope = Some m; about = about Counter [] }) → ⊥ }
{}

/// What is done to streams by number.
pub fn showing()
    ensures fed_nowhere { fed_by (([] ∷ [])) 1 ≡ [] }
{}
