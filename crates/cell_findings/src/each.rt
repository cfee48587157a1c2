//! Items of which threads ask something.

ghost use Rattle.std.specs.Prelude.{◌≡◌, All, IfOk, List, Ok, map};
ghost use Rattle.std.specs.Borrow.{Bor};
ghost use Rattle.std.specs.List.{AllZip};

use rayon::prelude::*;
use std::alloc::{AllocError, Global};
use std::thread::Threads;

/// What a call answers about each item, in the order of items. Threads share them, each at least `fewest`.
///
/// An `Err` is that of a call, or means out of memory.
pub fn each_in_threads<
    R: Threads + Sync,
    T: Sync,
    U: Send + Drop,
    E: From<AllocError> + Send + Drop,
    F: Fn(&T) -> Result<U, E> + Copy + Send + Sync,
>(rt: &R, alloc: Global, fewest: usize, items: &[T], ask: F) -> Result<Vec<U>, E>
    requires { All (λ (x : T). (shown : Bor T) → shown.now ≡ x → F.pre ask shown) items.now }
    ensures { IfOk result (λ answers. (shown : List (Bor T)) × (map (λ (b : Bor T). b.now) shown ≡ items.now)
        × AllZip (λ b answer. F.post ask b (Ok answer)) shown answers.items) }
{
    let answers = items
        .par_iter()
        .with_min_len(fewest)
        .map(
            |item: &T| -> Result<U, E>
                requires { F.pre ask item }
                ensures { F.post ask item.entry result }
            { ask(item) },
        )
        .collect::<Result<Vec<U>, E>>(rt, alloc)?;
    Ok(answers?)
}
