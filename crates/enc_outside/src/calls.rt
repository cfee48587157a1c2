//! A count of calls, of which one is to fail.

ghost use Rattle.std.specs.Prelude.{◌↔◌, IsTrue};
ghost use Rattle.enc_outside.specs.Calls.{IsFailing, IsNext};

/// How many calls there were, and which is to fail, by its number from 1; 0 is none.
#[derive(Clone, Copy)]
pub(crate) struct Calls {
    pub(crate) done: u64,
    pub(crate) failing: u64,
}

impl Calls {
    /// Counts a call, and says whether it is to fail.
    pub(crate) fn count(&mut self) -> bool
        ensures fails { IsTrue result ↔ IsFailing self.old }
        ensures next { IsNext self.old self.new }
    {
        let failing = self.done < u64::MAX && self.done + 1 == self.failing;
        self.done = self.done.saturating_add(1);
        failing
    }
}
