//! The sessions that items name.

ghost use Rattle.std.specs.Prelude.{◌≡◌, ℕ, ◌<◌, ◌≤◌, ◌+◌, ◌-◌, ◌^◌, ◌∷◌, [], ◌++◌, map, length, not, true};
ghost use Rattle.std.specs.Prelude.{option_to_list, List, IfSome, IfOk, OnOk, MatchResult, slice_index};
ghost use Rattle.text_spec.specs.OrderLine.{are_all_used as spec_are_all_used, is_bad_session, session_of};
ghost use Rattle.order_text.specs.Counts.{AreCounts, AreTaken, IsItemRefusal};

use crate::order::OrderRefusal;
use std::alloc::{AllocError, Global};
use text_lines::read_unsigned;

/// The session that an item names.
fn read_session(word: &[u8], quotas: &[u32]) -> Option<u32>
    requires { length quotas.now < 2 ^ 32 }
    ensures session { result ≡ session_of quotas.now word.now }
    ensures within { IfSome result (λ session. (1 ≤ session) × (session ≤ length quotas.now)) }
{
    match read_unsigned(word) {
        Some(number) if 1 <= number && number as usize <= quotas.len() => Some(number),
        _ => None,
    }
}

/// The sessions taken so far, and how often each session stands among them.
#[derive(Drop)]
struct Taken {
    order: Vec<u32>,
    used: Vec<u32>,
}

/// Takes a session.
fn take_session(taken: &mut Taken, session: u32) -> Result<(), AllocError>
    requires within { 1 ≤ session }
    requires above { session ≤ length taken.old.used.items }
    requires room { slice_index taken.old.used.items (session - 1) < 2 ^ 32 - 1 }
    requires counts { AreCounts taken.old.order.items taken.old.used.items }
    ensures order { OnOk result (taken.new.order.items ≡ taken.old.order.items ++ session ∷ []) }
    ensures counts { OnOk result (AreCounts taken.new.order.items taken.new.used.items) }
    ensures length { length taken.new.used.items ≡ length taken.old.used.items }
{
    taken.order.push(session)?;
    taken.used[session as usize - 1] += 1;
    Ok(())
}

/// Takes the session that an item names, unless the item is bad.
fn take_item(taken: &mut Taken, quotas: &[u32], word: &[u8]) -> Result<bool, AllocError>
    requires few { length quotas.now < 2 ^ 32 }
    requires length { length taken.old.used.items ≡ length quotas.now }
    requires counts { AreCounts taken.old.order.items taken.old.used.items }
    ensures bad { IfOk result (λ good. not good ≡ is_bad_session quotas.now taken.old.order.items (session_of quotas.now word.now)) }
    ensures order { IfOk result (λ good. good ≡ true → taken.new.order.items ≡ taken.old.order.items ++ option_to_list (session_of quotas.now word.now)) }
    ensures counts { IfOk result (λ good. good ≡ true → AreCounts taken.new.order.items taken.new.used.items) }
    ensures length { length taken.new.used.items ≡ length taken.old.used.items }
{
    let Some(session) = read_session(word, quotas) else {
        return Ok(false);
    };
    if quotas[session as usize - 1] <= taken.used[session as usize - 1] {
        return Ok(false);
    }
    take_session(taken, session)?;
    Ok(true)
}

/// The sessions that items name, and how often each stands among them; or the first bad item.
pub fn read_sessions(
    alloc: Global,
    items: &[&[u8]],
    quotas: &[u32],
) -> Result<(Vec<u32>, Vec<u32>), OrderRefusal>
    requires few { length quotas.now < 2 ^ 32 }
    requires short { length items.now < 2 ^ 32 - 1 }
    ensures { MatchResult result
        (λ found. AreTaken quotas.now (map (λ item. item.now) items.now) found.0.items found.1.items)
        (IsItemRefusal quotas.now (map (λ item. item.now) items.now)) }
{
    let used = vec![in alloc; 0u32; quotas.len()]?;
    let mut taken = Taken {
        order: Vec::new(alloc),
        used,
    };
    for (k, item) in items.iter().enumerate() {
        if !take_item(&mut taken, quotas, item)? {
            return Err(OrderRefusal::BadPlace(k as u32 + 1));
        }
    }
    Ok((taken.order, taken.used))
}

/// Whether the sessions have used all their shared commands.
pub fn are_all_used(quotas: &[u32], used: &[u32]) -> bool
    requires { length used.now ≡ length quotas.now }
    ensures { (order : List ℕ) → AreCounts order used.now → result ≡ spec_are_all_used quotas.now order }
{
    for (k, quota) in quotas.iter().enumerate() {
        if used[k] < *quota {
            return false;
        }
    }
    true
}
