//! A rendezvous hook for tests.

ghost use Rattle.std.specs.Prelude.{◌≡◌, IfErr, OnErr};

/// A rendezvous gave up: the session, and the number of its shared command from 1.
#[derive(Clone, Copy, Debug, PartialEq, Eq)]
pub struct Stuck {
    pub desk: u32,
    pub serial: u32,
}

/// A rendezvous hook: where a test holds the threads of sessions.
pub trait Meet {
    /// Whether it may give up. No call changes this.
    ghost sticks: { Self → Type 0 };

    /// Comes before a shared command of a session.
    fn arrive(&self, desk: u32, serial: u32) -> Result<(), Stuck>
        ensures cause { OnErr result (sticks self.now) }
        ensures who { IfErr result (λ stuck. (stuck.desk ≡ desk) × (stuck.serial ≡ serial)) };
}

/// No rendezvous: nobody waits, and nobody gives up.
#[derive(Clone, Copy, Debug, Drop)]
pub struct NoMeet;

impl Meet for NoMeet {
    ghost sticks = { λ _. ⊥ };

    fn arrive(&self, _desk: u32, _serial: u32) -> Result<(), Stuck> {
        Ok(())
    }
}
