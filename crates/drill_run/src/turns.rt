//! The order of a drill.

ghost use Rattle.std.specs.Prelude.{◌≡◌, ◌++◌, ◌≤◌, IfOk, OnOk};
ghost use Rattle.std.specs.List.{range_with_len};
ghost use Rattle.drill_run.specs.RoundRobin.{round_robin as round_robin_of};

use std::alloc::{AllocError, Global};

/// How many views and commits a generated script has.
const TURN_COUNT: u32 = 20;

/// Appends the number of each session, from 1 on.
#[tactic(auto, using(crate::proofs::InTurns::session_more))]
fn push_turn(order: &mut Vec<u32>, sessions: u32) -> Result<(), AllocError>
    requires { sessions ≤ 16 }
    ensures { OnOk result (order.new.items ≡ order.old.items ++ range_with_len 1 sessions) }
{
    for session in 0..sessions {
        order.push(session + 1)?;
    }
    Ok(())
}

/// The order of a drill: every session in turn, as often as a generated script has views and commits.
#[tactic(auto, using(crate::proofs::InTurns::turn_more), unfolding(crate::specs::RoundRobin::round_robin))]
pub(crate) fn round_robin(alloc: Global, sessions: u32) -> Result<Vec<u32>, AllocError>
    requires { sessions ≤ 16 }
    ensures { IfOk result (λ order. order.items ≡ round_robin_of sessions) }
{
    let mut order = Vec::new(alloc);
    for _turn in 0..TURN_COUNT {
        push_turn(&mut order, sessions)?;
    }
    Ok(order)
}
