//! The words of a feature record.

ghost use Rattle.std.specs.Prelude.{◌≡◌, ◌++◌, ◌∷◌, List, ℕ, IfOk, decimal};
ghost use Rattle.s57_types.specs.declared.name.Lnam.{Lnam};
ghost use Rattle.s57_types.specs.declared.record.Feature.{Feature};
ghost use Rattle.text_spec.specs.EditLine.{feature_words};
ghost use Rattle.text_spec.specs.Lines.{spaced_words};
ghost use Rattle.script_text.specs.Cuts.{IsFrom};
ghost use Rattle.script_text.specs.Widths.{IsFeatureOfWidth, IsIdentityOfWidth};

use crate::cut::next_part;
use crate::items::items_of;
use crate::value::{byte_of, identity_of, next_name, short_of};
use s57_types::{Feature, Lnam};
use std::alloc::{AllocError, Global};

/// The feature object identifier at the beginning of words, and what follows it.
fn identity_of_words(words: &[u8]) -> (Lnam, &[u8])
    ensures width { IsIdentityOfWidth result.0 }
    ensures found { (identity : Lnam) (rest : List ℕ) → IsIdentityOfWidth identity → IsFrom 32 rest
        → words.now ≡ 32 ∷ (decimal identity.agen ++ (32 ∷ (decimal identity.fidn ++ (32 ∷ (decimal identity.fids ++ rest)))))
        → (result.0 ≡ identity) × (result.1.now ≡ rest) }
{
    let (agen, words) = next_part(b' ', words);
    let (fidn, words) = next_part(b' ', words);
    let (fids, words) = next_part(b' ', words);
    (identity_of(agen, fidn, fids), words)
}

/// The feature record that words stand for.
///
/// An `Err` means out of memory.
pub fn feature_of(alloc: Global, words: &[u8]) -> Result<Feature, AllocError>
    ensures width { IfOk result IsFeatureOfWidth }
    ensures found { (feature : Feature) → IsFeatureOfWidth feature → words.now ≡ spaced_words (feature_words feature) → IfOk result (λ read. read ≡ feature) }
{
    let (name, words) = next_name(words);
    let (rver, words) = next_part(b' ', words);
    let (prim, words) = next_part(b' ', words);
    let (grup, words) = next_part(b' ', words);
    let (objl, words) = next_part(b' ', words);
    let (foid, words) = identity_of_words(words);
    let items = items_of(alloc, words)?;
    Ok(Feature {
        name,
        prim: byte_of(prim),
        grup: byte_of(grup),
        objl: short_of(objl),
        rver: short_of(rver),
        foid,
        attf: items.attrs,
        natf: items.natf,
        partners: items.partners,
        places: items.places,
    })
}
