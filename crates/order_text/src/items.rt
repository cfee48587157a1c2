//! The items of an order's text.

ghost use Rattle.std.specs.Prelude.{◌≡◌, ◌<◌, ◌≤◌, ◌+◌, ◌==◌, ◌∷◌, [], map, length, nat_eq, take, drop, IfOk, MatchOption, codes, true, false};
ghost use Rattle.std.specs.Cmp.Lexicographic.{pointwise};
ghost use Rattle.std.specs.List.{position, position_or_len};
ghost use Rattle.text_spec.specs.OrderLine.{before_feed, ends_well as spec_ends_well, from_feed, order_items as spec_order_items, pieces};

use std::alloc::{AllocError, Global};

/// What follows `order` in a text that begins with it.
pub fn behind_order(bytes: &[u8]) -> Option<&[u8]>
    ensures { MatchOption result
        (pointwise nat_eq (codes "order") (take 5 bytes.now) ≡ false)
        (λ behind. (pointwise nat_eq (codes "order") (take 5 bytes.now) ≡ true) × (behind.now ≡ drop 5 bytes.now)) }
{
    if bytes.len() < 5 {
        return None;
    }
    let (front, behind) = bytes.split_at(5);
    if b"order".as_slice() == front {
        Some(behind)
    } else {
        None
    }
}

/// The place of the first byte that is this one.
fn position_of(text: &[u8], mark: u8) -> Option<usize>
    ensures { result ≡ position (λ c. c == mark) text.now }
{
    text.iter().position(|byte| *byte == mark)
}

/// The place of the first byte that is this one, or the length.
fn place_of(text: &[u8], mark: u8) -> usize
    ensures place { result ≡ position_or_len (λ c. c == mark) text.now }
    ensures within { result ≤ length text.now }
{
    match position_of(text, mark) {
        Some(place) => place,
        None => text.len(),
    }
}

/// The bytes before the first line feed, or all.
fn before_line_feed(text: &[u8]) -> &[u8]
    ensures before { result.now ≡ before_feed text.now }
    ensures within { length result.now ≤ length text.now }
{
    let (before, _) = text.split_at(place_of(text, b'\n'));
    before
}

/// The bytes from the first line feed on.
fn from_line_feed(text: &[u8]) -> &[u8]
    ensures { result.now ≡ from_feed text.now }
{
    let (_, rest) = text.split_at(place_of(text, b'\n'));
    rest
}

/// The bytes up to the first space, and those behind it.
fn cut_piece(text: &[u8]) -> (&[u8], Option<&[u8]>)
    ensures { MatchOption result.1 (pieces text.now ≡ result.0.now ∷ [])
        (λ rest. (pieces text.now ≡ result.0.now ∷ pieces rest.now) × (length rest.now < length text.now)) }
{
    let place = place_of(text, b' ');
    if place == text.len() {
        return (text, None);
    }
    let (piece, _) = text.split_at(place);
    let (_, rest) = text.split_at(place + 1);
    (piece, Some(rest))
}

/// The pieces between spaces.
fn cut_pieces(alloc: Global, text: &[u8]) -> Result<Vec<&[u8]>, AllocError>
    ensures pieces { IfOk result (λ found. map (λ piece. piece.now) found.items ≡ pieces text.now) }
    ensures few { IfOk result (λ found. length found.items ≤ length text.now + 1) }
{
    let mut found = Vec::new(alloc);
    let mut rest = Some(text);
    while let Some(text) = rest {
        let (piece, next) = cut_piece(text);
        found.push(piece)?;
        rest = next;
    }
    Ok(found)
}

/// The items behind `order`.
pub fn order_items(alloc: Global, behind: &[u8]) -> Result<Vec<&[u8]>, AllocError>
    ensures items { IfOk result (λ items. map (λ item. item.now) items.items ≡ spec_order_items behind.now) }
    ensures few { IfOk result (λ items. length items.items ≤ length behind.now) }
{
    let mut found = cut_pieces(alloc, before_line_feed(behind))?;
    let first = found.remove(0);
    if !first.is_empty() {
        found.clear();
    }
    Ok(found)
}

/// Whether exactly one line feed follows the last item, or `order` where there is none.
pub fn ends_well(behind: &[u8], items: usize) -> bool
    ensures { result ≡ spec_ends_well behind.now items }
{
    let tail = if items == 0 {
        behind
    } else {
        from_line_feed(behind)
    };
    b"\n".as_slice() == tail
}
