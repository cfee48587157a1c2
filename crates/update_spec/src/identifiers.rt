//! What names a feature record of an update.

use s57_types::{Frid, Lnam};

/// The identifiers of a feature record: FRID and FOID (S-57 Part 3, 7.6.1 and 7.6.2).
#[derive(Clone, Copy, Debug, PartialEq, Eq)]
pub struct Identifiers {
    pub frid: Frid,
    pub foid: Lnam,
}
