//! Cutting a text at a mark.

ghost use Rattle.std.specs.Prelude.{◌≡◌, ◌<◌, ℕ, List, ◌∷◌, ◌++◌, length, false};
ghost use Rattle.s57_types.specs.Subfield.{holds};
ghost use Rattle.script_text.specs.Cuts.{before, from, IsFrom};

/// The bytes before the first mark, or all, and those from it on.
pub fn cut_at(mark: u8, text: &[u8]) -> (&[u8], &[u8])
    ensures before { result.0.now ≡ before mark text.now }
    ensures from { result.1.now ≡ from mark text.now }
{
    let place = text.iter().position(|byte| *byte == mark);
    text.split_at(place.unwrap_or(text.len()))
}

/// The part behind the first byte of a text, up to the next mark, and what follows it.
pub fn next_part(mark: u8, text: &[u8]) -> (&[u8], &[u8])
    ensures part { (lead : ℕ) (part rest : List ℕ) → holds mark part ≡ false → IsFrom mark rest → text.now ≡ lead ∷ (part ++ rest)
        → (result.0.now ≡ part) × (result.1.now ≡ rest) }
    ensures shorter { 0 < length text.now → length result.1.now < length text.now }
{
    match text.split_first() {
        Some((_, behind)) => cut_at(mark, behind),
        None => (text, text),
    }
}
