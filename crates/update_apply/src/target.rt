//! The record of the cell that an update record is about.

ghost use Rattle.std.specs.Prelude.{◌≡◌, ◌<◌};
ghost use Rattle.std.specs.Option.{option_copied};
ghost use Rattle.cell_spec.specs.Lookup.{lookup_record};
ghost use Rattle.update_spec.specs.UpdateRecords.{is_new, target_feature, target_vector};

use chain_topo::{ListLook, Look};
use look_counter::start_counter;
use s57_types::{Feature, Rec, RecName, Vector};
use std::marker::Brand;
use std::sync::ledger::{Blank, Ledger};

/// What has a name, the look-up counted.
fn counted_record<'a, L: Ledger>(
    look: &'a ListLook<'_>,
    name: RecName,
    blank: Blank,
) -> Option<&'a Rec>
    requires name { blank.name ≡ L.name }
    requires parts { blank.parts ≡ L.parts }
    requires some_part { 0 < L.parts }
    ensures { option_copied result ≡ lookup_record look.now name }
{
    let mut steps = start_counter::<L>(blank);
    look.get(name, &mut steps)
}

/// What has a name in the cell.
fn record_named<'a>(look: &'a ListLook<'_>, name: RecName) -> Option<&'a Rec>
    ensures { option_copied result ≡ lookup_record look.now name }
{
    counted_record::<Brand>(look, name, Blank::new(1))
}

/// Whether the cell has nothing of a name.
pub fn is_new(look: &ListLook<'_>, name: RecName) -> bool
    ensures { result ≡ is_new look.now name }
{
    record_named(look, name).is_none()
}

/// The vector record of a name.
pub fn target_vector<'a>(look: &'a ListLook<'_>, name: RecName) -> Option<&'a Vector>
    ensures { option_copied result ≡ target_vector look.now name }
{
    match record_named(look, name)? {
        Rec::V(vector) => Some(vector),
        Rec::F(_) | Rec::H(_) => None,
    }
}

/// The feature record of a name.
pub fn target_feature<'a>(look: &'a ListLook<'_>, name: RecName) -> Option<&'a Feature>
    ensures { option_copied result ≡ target_feature look.now name }
{
    match record_named(look, name)? {
        Rec::F(feature) => Some(feature),
        Rec::V(_) | Rec::H(_) => None,
    }
}
