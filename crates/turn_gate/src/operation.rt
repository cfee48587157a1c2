//! What is run under the lock.
ghost use Rattle.std.specs.Prelude.{◌≡◌, List};
ghost use mathlib.Core.List.{IsPrefix};
ghost use Rattle.turn_gate.specs.Histories.{Appends};

use crate::chronicle::Chronicle;

/// An operation that is run once under the lock.
///
/// `act` takes the operation by value, so a lock can't run it twice; and an `Out` comes from `act` alone, so a lock
/// that has to answer one can't leave it out.
pub trait Deed<V: Chronicle> {
    /// The answer.
    type Out;

    /// The initial state that it knows.
    ghost origin: { Self → V.Origin };

    /// The beginning of the history that it knows.
    ghost known: { Self → List V.Entry };

    /// The history before, the answer and the history after.
    ghost relates: { Self → List V.Entry → Self.Out → List V.Entry → Type 0 };

    /// Runs it on the value, for the handle with the number `desk`.
    fn act(self, value: &mut V, desk: u32) -> Self::Out
        requires origin { V.origin value.old ≡ origin self }
        requires known { IsPrefix (known self) (V.entries value.old) }
        ensures origin { V.origin value.new ≡ V.origin value.old }
        ensures history { Appends V.number desk (V.entries value.old) (V.entries value.new) }
        ensures relation { relates self (V.entries value.old) result (V.entries value.new) };
}
