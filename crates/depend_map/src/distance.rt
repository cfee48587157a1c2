//! How far apart subjects are, as look-ups guess it.

use cell_spec::Subject;
use shared_table::{ByNumber, Distance};

/// Subjects of a kind are as far apart as their names, or as the numbers of their identifiers.
pub(crate) struct BySubject;

impl Distance<Subject> for BySubject {
    fn between(first: &Subject, key: &Subject) -> Option<u32> {
        match (first, key) {
            (Subject::Rec(from), Subject::Rec(name)) => ByNumber::between(from, name),
            (Subject::Side(from), Subject::Side(name)) => ByNumber::between(from, name),
            (Subject::Ident(from), Subject::Ident(foid)) => foid.fidn.checked_sub(from.fidn),
            _ => None,
        }
    }
}
