//! The items of a record, a list for each letter.

ghost use Rattle.std.specs.Prelude.{◌++◌, ◌∷◌, [], List, ℕ, IfOk, OnOk};
ghost use Rattle.script_text.specs.Items.{AreItems, AreItemsOf};

use crate::cut::next_part;
use crate::item::{take_attribute, take_end, take_partner, take_place, take_point, take_sounding};
use s57_types::{Attrs, Deep, Ends, Partners, Places, Plane};
use std::alloc::{AllocError, Global};

/// The items of a record. A record has no list for some of the letters: an item of these is left out of it, so its line is another than
/// the one that was read.
#[derive(Drop)]
pub struct RecordItems {
    pub attrs: Attrs,
    pub natf: Attrs,
    pub ends: Ends,
    pub plane: Plane,
    pub deep: Deep,
    pub partners: Partners,
    pub places: Places,
}

/// Appends the value that an item stands for to its list.
fn take_item(alloc: Global, word: &[u8], items: &mut RecordItems) -> Result<(), AllocError>
    ensures { OnOk result ((words : List (List ℕ)) → AreItems words items.old → AreItems (words ++ word.now ∷ []) items.new) }
{
    take_attribute(alloc, b'a', word, &mut items.attrs)?;
    take_attribute(alloc, b'n', word, &mut items.natf)?;
    take_end(word, &mut items.ends)?;
    take_point(word, &mut items.plane)?;
    take_sounding(word, &mut items.deep)?;
    take_partner(alloc, word, &mut items.partners)?;
    take_place(word, &mut items.places)?;
    Ok(())
}

/// The lists that items stand for, each item behind a space.
///
/// An `Err` means out of memory.
pub fn items_of(alloc: Global, text: &[u8]) -> Result<RecordItems, AllocError>
    ensures { IfOk result (λ items. AreItemsOf text.now items) }
{
    let mut items = RecordItems {
        attrs: Attrs::make(alloc),
        natf: Attrs::make(alloc),
        ends: Ends::make(alloc),
        plane: Plane::make(alloc),
        deep: Deep::make(alloc),
        partners: Partners::make(alloc),
        places: Places::make(alloc),
    };
    let mut rest = text;
    while !rest.is_empty() {
        let (word, behind) = next_part(b' ', rest);
        take_item(alloc, word, &mut items)?;
        rest = behind;
    }
    Ok(items)
}
