//! Orders and their lines.

ghost use mathlib.Core.List.{IsPrefix};
ghost use Rattle.std.specs.Prelude.{◌≡◌, ℕ, ◌<◌, ◌^◌, List, Ok, length};
ghost use Rattle.text_spec.specs.OrderLine.{IsOrder, order_line, order_of};

/// The line of an order is read as that order, no other order has it, no text begins with the lines of two, and no other text is read as an
/// order.
pub fn order_lines_are_read()
    ensures read { (quotas order : List ℕ) → length quotas < 2 ^ 32 → IsOrder quotas order → order_of quotas (order_line order) ≡ Ok order }
    ensures only { (quotas text order : List ℕ) → order_of quotas text ≡ Ok order → IsOrder quotas order × (text ≡ order_line order) }
    ensures one { (quotas order other : List ℕ) → length quotas < 2 ^ 32 → IsOrder quotas order → IsOrder quotas other
        → order_line order ≡ order_line other → order ≡ other }
    ensures first { (quotas order other text : List ℕ) → length quotas < 2 ^ 32 → IsOrder quotas order → IsOrder quotas other
        → IsPrefix (order_line order) text → IsPrefix (order_line other) text → order ≡ other }
{}
