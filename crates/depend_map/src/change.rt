//! A change of what a subject reads.

use cell_spec::{Keys, Subject};

/// The keys that a subject reads from now on. `None` takes the subject out.
#[derive(Debug)]
pub struct ReadChange {
    pub subject: Subject,
    pub reads: Option<Keys>,
}

impl Drop for ReadChange {
    fn drop(self) {
        let ReadChange {
            subject: _,
            reads: _,
        } = self;
    }
}
