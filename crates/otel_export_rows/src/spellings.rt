//! Rows of how names and numbers are spelled.

ghost use Rattle.std.specs.Prelude.{◌≡◌, [], ◌∷◌, true, codes, map};
ghost use Rattle.otel_otlp.specs.Numbers.{digits_within};
ghost use Rattle.otel_prometheus.specs.Units.{unit_suffix};

/// The names of families.
pub fn names()
    ensures nothing_without_a_unit { unit_suffix true [] ≡ [] }
{}

/// Numbers in a request.
pub fn numbers()
    ensures last_digits { map (λ count. digits_within count 1234) (0 ∷ 1 ∷ 3 ∷ 4 ∷ 5 ∷ []) ≡ [] ∷ codes "4" ∷ codes "234" ∷ codes "1234" ∷ codes "1234" ∷ [] }
{}
