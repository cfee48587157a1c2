//! Lists in ascending order, each item once.

ghost use Rattle.std.specs.Prelude.{◌≡◌, ◌↔◌, IsTrue};
ghost use Rattle.std.specs.List.{list_any};
ghost use Rattle.std.specs.List.Sorted.{IsStrictlySortedBy};
ghost use Rattle.std.specs.declared.cmp.Ordering.TheVariants.{Equal};
ghost use Rattle.cell_spec.specs.Ascending.{ascending};
ghost use Rattle.cell_spec.specs.Names.{key_order, name_order, same_key};

use crate::key::{Key, Keys, Names};
use crate::law::orders_are_by_parts;
use s57_types::{Items, RecName};

/// Whether items ascend, each once.
fn ascends<T: Ord + Copy>(items: &[T]) -> bool
    ensures { IsTrue result ↔ IsStrictlySortedBy T.cmp items.now }
{
    items.is_sorted_by(|item, next| item.cmp(next).is_lt())
}

/// The items in ascending order, each once. Most lists ascend as they are given, which takes less to see than to sort them. It takes no memory.
pub fn distinct<T: Ord + Copy>(mut items: Vec<T>) -> Vec<T>
    requires exact { (a b : T) → T.cmp a b ≡ Equal → a ≡ b }
    ensures { result.items ≡ ascending T.cmp items.items }
{
    if ascends(&items) {
        return items;
    }
    items.sort_unstable();
    items.dedup();
    items
}

/// The keys in ascending order, each once. It takes no memory.
pub fn ascending_keys(keys: Vec<Key>) -> Keys
    ensures { result ≡ ascending key_order keys.items }
{
    orders_are_by_parts();
    Items::of_vec(distinct(keys))
}

/// The names in ascending order, each once: of the targets of a record, those that a check looks up. It takes no
/// memory.
pub fn ascending_names(names: Vec<RecName>) -> Names
    ensures { result ≡ ascending name_order names.items }
{
    orders_are_by_parts();
    Items::of_vec(distinct(names))
}

/// Whether keys ascend, each once, as those of a read set do.
pub fn keys_ascend(keys: &[Key]) -> bool
    ensures { IsTrue result ↔ IsStrictlySortedBy key_order keys.now }
{
    ascends(keys)
}

/// Whether a key stands among keys in order.
pub fn has_key(keys: &[Key], key: &Key) -> bool
    requires { IsStrictlySortedBy key_order keys.now }
    ensures { result ≡ list_any (same_key key.now) keys.now }
{
    orders_are_by_parts();
    keys.binary_search(key).is_ok()
}
