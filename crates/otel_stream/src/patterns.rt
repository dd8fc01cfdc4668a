//! Patterns of names.

ghost use Rattle.std.specs.Prelude.{◌≡◌, ◌+◌, ◌<◌, ◌≤◌, ℕ, length, drop, true, false};
ghost use Rattle.otel_stream.specs.Selectors.{matches, some_end};

/// What there is to say of a text where a pattern was followed up to its first `*`.
enum Followed {
    /// The text fits the pattern, which has no `*`.
    Fits,
    /// The text doesn't fit the pattern. An end of it may.
    Differs,
    /// The text is too short, and so is each end of it.
    IsShort,
    /// The pattern has a `*` at this place, and the text fits up to there.
    HasStar(usize),
}

/// Whether the whole text fits the pattern, in which `*` stands for any text, `?` for any byte, and each other byte for
/// itself. Takes no memory, and a number of steps in the order of the product of the lengths at most.
pub(crate) fn is_match(pattern: &[u8], text: &[u8]) -> bool
    ensures { result ≡ matches pattern.now text.now }
{
    match follow(pattern, text) {
        Followed::Fits => true,
        Followed::Differs => false,
        Followed::IsShort => false,
        Followed::HasStar(place) => has_matching_end(&pattern[place + 1..], &text[place..]),
    }
}

/// Whether an end of the text fits the pattern. The first place where the text fits up to the next `*` is as good as
/// each later one: so no step is undone.
fn has_matching_end(pattern: &[u8], text: &[u8]) -> bool
    ensures { result ≡ some_end (matches pattern.now) text.now }
{
    let mut pattern = pattern;
    let mut text = text;
    loop {
        match follow(pattern, text) {
            Followed::Fits => return true,
            Followed::IsShort => return false,
            Followed::Differs => {
                let Some((_, rest)) = text.split_first() else {
                    return false;
                };
                text = rest;
            }
            Followed::HasStar(place) => {
                text = &text[place..];
                pattern = &pattern[place + 1..];
            }
        }
    }
}

/// Follows the pattern and the text from their beginning, up to the first `*`.
fn follow(pattern: &[u8], text: &[u8]) -> Followed
    ensures fits { result ≡ Followed.Fits → matches pattern.now text.now ≡ true }
    ensures differs { result ≡ Followed.Differs → matches pattern.now text.now ≡ false }
    ensures short { result ≡ Followed.IsShort → some_end (matches pattern.now) text.now ≡ false }
    ensures within { (place : ℕ) → result ≡ Followed.HasStar place → (place < length pattern.now) × (place ≤ length text.now) × (place < usize.MAX) }
    ensures star { (place : ℕ) → result ≡ Followed.HasStar place → matches pattern.now text.now ≡ some_end (matches (drop (place + 1) pattern.now)) (drop place text.now) }
    ensures ends { (place : ℕ) → result ≡ Followed.HasStar place → some_end (matches pattern.now) text.now ≡ some_end (matches (drop (place + 1) pattern.now)) (drop place text.now) }
{
    for (place, sign) in pattern.iter().enumerate() {
        if *sign == b'*' {
            return Followed::HasStar(place);
        }
        if place == text.len() {
            return Followed::IsShort;
        }
        if *sign != b'?' && *sign != text[place] {
            return Followed::Differs;
        }
    }
    if pattern.len() == text.len() {
        Followed::Fits
    } else {
        Followed::Differs
    }
}
