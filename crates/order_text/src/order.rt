//! Orders.

ghost use Rattle.std.specs.Prelude.{◌≡◌, ℕ, ◌<◌, ◌^◌, ◌&&◌, List, length, MatchResult, Ok};
ghost use Rattle.text_spec.specs.OrderLine.{are_all_used as spec_are_all_used, ends_well as spec_ends_well, order_of};
ghost use Rattle.order_text.specs.Counts.{AreCounts, IsOrderRefusal};

use crate::items::{behind_order, ends_well, order_items};
use crate::sessions::{are_all_used, read_sessions};
use s57_types::Items;
use std::alloc::{AllocError, Global};

/// The session of each shared command, one after the other. Sessions count from 1.
pub type Order = Items<u32>;

/// Why a text is no order of sessions.
#[derive(Clone, Copy, Debug, PartialEq, Eq)]
pub enum OrderRefusal {
    /// The first bad place: 0 where the text doesn't begin with `order`, else the place of an item from 1, or one more
    /// than there are items.
    BadPlace(u32),
    /// Out of memory.
    NoMemory,
}

impl From<AllocError> for OrderRefusal {
    ghost use Rattle.order_text.specs.declared.order.OrderRefusal.TheVariants.{NoMemory};

    ghost from_gives = { λ error refusal. refusal ≡ NoMemory };

    fn from(_error: AllocError) -> OrderRefusal {
        OrderRefusal::NoMemory
    }
}

/// Whether an order of so many items ends where it should.
fn is_ended(behind: &[u8], items: usize, quotas: &[u32], used: &[u32]) -> bool
    requires { length used.now ≡ length quotas.now }
    ensures { (order : List ℕ) → AreCounts order used.now → result ≡ (spec_are_all_used quotas.now order && spec_ends_well behind.now items) }
{
    are_all_used(quotas, used) && ends_well(behind, items)
}

/// The order that a text is, where each session has so many shared commands.
///
/// An `Err` is its first bad place, or out of memory.
pub fn read_order(alloc: Global, bytes: &[u8], quotas: &[u32]) -> Result<Order, OrderRefusal>
    requires short { length bytes.now < 2 ^ 32 }
    requires few { length quotas.now < 2 ^ 32 }
    ensures { MatchResult result (λ order. order_of quotas.now bytes.now ≡ Ok order) (IsOrderRefusal quotas.now bytes.now) }
{
    let Some(behind) = behind_order(bytes) else {
        return Err(OrderRefusal::BadPlace(0));
    };
    let items = order_items(alloc, behind)?;
    let (order, used) = read_sessions(alloc, &items, quotas)?;
    if is_ended(behind, items.len(), quotas, &used) {
        Ok(Order::of_vec(order))
    } else {
        Err(OrderRefusal::BadPlace(items.len() as u32 + 1))
    }
}
