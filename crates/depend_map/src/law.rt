//! A law of changes, the contract of a function that does nothing.

ghost use Rattle.depend_map.specs.Changes.{ChangesSetTheirSubjects};

/// Changes set the reads of their subjects, of several of one subject the last, and leave those of others.
pub fn changes_set_their_subjects()
    ensures { ChangesSetTheirSubjects }
{}
