//! Whether a record can be written.

ghost use Rattle.std.specs.Prelude.{◌≡◌, MatchResult, Some, None};
ghost use Rattle.s57_types.specs.Fitness.{unfitness};

use crate::length::is_short;
use crate::name::has_good_names;
use crate::text::has_good_texts;
use s57_types::{Rec, Unfit};

/// Whether a record can be written where national attributes are at the level NALL, and why not: its names are looked
/// at first, then its texts, then its length.
#[tactic(auto, unfolding(s57_types::specs::Fitness::unfitness))]
pub fn fits(rec: &Rec, nall: u8) -> Result<(), Unfit>
    ensures { MatchResult result (λ _. unfitness nall rec.now ≡ None) (λ why. unfitness nall rec.now ≡ Some why) }
{
    if !has_good_names(rec) {
        return Err(Unfit::BadName);
    }
    if !has_good_texts(rec, nall) {
        return Err(Unfit::BadText);
    }
    if !is_short(rec, nall) {
        return Err(Unfit::TooLong);
    }
    Ok(())
}
