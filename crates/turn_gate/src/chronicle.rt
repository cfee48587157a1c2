//! The value that a lock guards.
ghost use Rattle.std.specs.Prelude.{ℕ, List};

/// A value with an append-only history and a fixed initial state.
pub trait Chronicle {
    /// An entry of the history. It has the number of the handle that made it.
    type Entry;

    /// The initial state.
    type Origin;

    ghost origin: { Self → Self.Origin };

    ghost entries: { Self → List Self.Entry };

    ghost number: { Self.Entry → ℕ };
}
