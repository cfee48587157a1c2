//! A law of changes, the contract of a function that does nothing.

ghost use Rattle.tile_index.specs.Changes.{ChangesSetTheirNames};

/// Changes set the coverings of their names, of several of one name the last, and leave those of others.
pub fn changes_set_their_names()
    ensures { ChangesSetTheirNames }
{}
