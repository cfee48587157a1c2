//! Laws of the definitions that the table's contracts cite. A caller that calls one has it in scope.
ghost use Rattle.row_table.specs.Laws.{PutSetsOneKey, TakeClearsOneKey, ChangesKeepOrder, ChangesCountRows, EachRowIsFound, LowerBoundParts, CopiesAreSame};

/// A put changes the value of its key and of no other, and a removal takes that of its key and of no other. Both keep the keys ascending. A
/// put adds a row for a new key alone, and a removal takes one for a key that is there. Each row is the one that its key finds, and the
/// places below a key's lower bound are those of the keys below it.
pub fn keys_find_their_rows<K: Ord, V>()
    ensures put { PutSetsOneKey K V K.cmp }
    ensures take { TakeClearsOneKey K V K.cmp }
    ensures order { ChangesKeepOrder K V K.cmp }
    ensures count { ChangesCountRows K V K.cmp }
    ensures found { EachRowIsFound K V K.cmp }
    ensures places { LowerBoundParts K V K.cmp }
{}

/// Copies are the rows themselves where each clone of a value is that value.
pub fn copies_are_same<K, V: Clone>()
    ensures { CopiesAreSame K V V.is_clone }
{}
