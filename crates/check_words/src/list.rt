//! The only item of a list.

ghost use Rattle.std.specs.Prelude.{◌≡◌};
ghost use Rattle.rule_spec.specs.Records.{the_only as spec_the_only};

/// The item of a list that has just one.
pub fn the_only<T: Copy>(items: &[T]) -> Option<T>
    ensures { result ≡ spec_the_only items.now }
{
    match items {
        [item] => Some(*item),
        _ => None,
    }
}
