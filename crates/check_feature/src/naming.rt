//! What a record names: a feature records by its spatial pointers (FSPT), and features by its pointers to them (FFPT); an edge nodes by its ends.

ghost use Rattle.std.specs.Prelude.{◌≡◌, ◌++◌, Bool, List, OnOk, map, true};
ghost use Rattle.std.specs.List.{All};
ghost use Rattle.s57_types.specs.declared.cell.Cell.{Cell as SpecCell};
ghost use Rattle.cell_spec.specs.declared.key.Key.{Key as SpecKey};
ghost use Rattle.rule_spec.specs.Findings.{finding};
ghost use Rattle.rule_spec.specs.Rule.{places_where};
ghost use Rattle.near_records.specs.Near.{has_key};

use crate::found::push_place_if;
use cell_spec::Finding;
use near_records::Near;
use std::alloc::AllocError;

/// A pointer to a record or to a feature, which the cell may not have: `Spot`, `Partner` and `End`.
pub trait Naming {
    /// The key that asks for what it names.
    ghost key: { Self → SpecKey };

    /// Whether a cell doesn't have what it names.
    ghost is_dangling: { SpecCell → Self → Bool };

    /// Whether the cell doesn't have what it names, where the key of that is near.
    fn dangles<N: Near>(&self, near: &N) -> bool
        ensures { (c : SpecCell) (keys : List SpecKey) → N.tells near.now c keys → has_key keys (key self.now) ≡ true → result ≡ is_dangling c self.now };
}

/// Appends a finding with its place for each pointer that dangles, where what each names is near.
///
/// An `Err` means out of memory.
pub fn push_dangling<T: Naming, N: Near>(
    findings: &mut Vec<Finding>,
    kind: u8,
    near: &N,
    pointers: &[T],
) -> Result<(), AllocError>
    ensures { (c : SpecCell) (keys : List SpecKey) → N.tells near.now c keys → All (λ (x : T). has_key keys (T.key x) ≡ true) pointers.now
        → OnOk result (findings.new.items ≡ findings.old.items ++ map (finding kind) (places_where (T.is_dangling c) pointers.now)) }
{
    for (k, pointer) in pointers.iter().enumerate() {
        push_place_if(findings, kind, pointer.dangles(near), k + 1)?;
    }
    Ok(())
}
