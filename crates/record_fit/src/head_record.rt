//! The lengths of the two head records when they are written.

ghost use Rattle.std.specs.Prelude.{◌≡◌, ◌+◌, ◌∷◌, [], codes, nat_le, length};
ghost use Rattle.frame_spec.specs.WrittenRecord.{record_length, field_lengths};
ghost use Rattle.s57_types.specs.Subfield.{row_bytes};
ghost use Rattle.s57_types.specs.FieldRows.{dsid_row, dssi_row, dspm_row};
ghost use Rattle.s57_types.specs.RecordFields.{number_field, field_of, length_limit};
ghost use Rattle.record_fit.specs.Lengths.{saturated};

use crate::length::{NUMBER_FIELD, is_within_limit};
use s57_types::{Dsid, Dspm, Dssi};

/// The length of the field DSSI.
pub const STRUCTURE_FIELD: usize = 36;

/// Whether the data set general information record of these fields has at most 99,999 bytes when it is written.
pub fn is_general_information_short(dsid: &Dsid, dssi: Dssi) -> bool
    ensures { result ≡ nat_le (record_length (field_lengths (number_field 0 ∷ field_of (codes "DSID") (dsid_row dsid.now) ∷ field_of
        (codes "DSSI") (dssi_row dssi) ∷ []))) length_limit }
{
    let _counts = dssi.counts;
    is_within_limit(&[NUMBER_FIELD, dsid_length(dsid), STRUCTURE_FIELD])
}

/// Whether the data set geographic reference record of this field has at most 99,999 bytes when it is written.
pub fn is_geographic_reference_short(dspm: &Dspm) -> bool
    ensures { result ≡ nat_le (record_length (field_lengths (number_field 0 ∷ field_of (codes "DSPM") (dspm_row dspm.now) ∷ []))) length_limit }
{
    is_within_limit(&[NUMBER_FIELD, parameters_length(dspm.comt.len())])
}

fn dsid_length(dsid: &Dsid) -> usize
    ensures { result ≡ saturated (length (row_bytes (dsid_row dsid.now)) + 1) }
{
    identification_length(
        texts_length(dsid.dsnm.len(), dsid.edtn.len(), dsid.updn.len()),
        texts_length(dsid.psdn.len(), dsid.pred.len(), dsid.comt.len()),
        fixed_texts_length(&dsid.uadt, &dsid.isdt, &dsid.sted),
    )
}

/// Three lengths and a number more.
fn sum_with(more: usize, first: usize, second: usize, third: usize) -> usize
    ensures { result ≡ saturated (first + second + third + more) }
{
    first
        .saturating_add(second)
        .saturating_add(third)
        .saturating_add(more)
}

/// The length of the field DSID by the lengths of its texts.
pub fn identification_length(numbered: usize, described: usize, dated: usize) -> usize
    ensures { result ≡ saturated (numbered + described + dated + 12) }
{
    sum_with(12, numbered, described, dated)
}

/// The length of three texts with their terminators.
pub fn texts_length(first: usize, second: usize, third: usize) -> usize
    ensures { result ≡ saturated (first + second + third + 3) }
{
    sum_with(3, first, second, third)
}

pub fn fixed_texts_length(first: &[u8], second: &[u8], third: &[u8]) -> usize
    ensures { result ≡ saturated (length first.now + length second.now + length third.now) }
{
    first
        .len()
        .saturating_add(second.len())
        .saturating_add(third.len())
}

/// The length of the field DSPM by the length of its comment.
pub fn parameters_length(comment: usize) -> usize
    ensures { result ≡ saturated (comment + 26) }
{
    comment.saturating_add(26)
}
