//! Whether a head can be written.

ghost use Rattle.std.specs.Prelude.{◌≡◌, ◌+◌, ◌&&◌, nat_le, length};
ghost use Rattle.std.specs.List.{list_all};
ghost use Rattle.frame_spec.specs.WrittenRecord.{record_length, field_lengths};
ghost use Rattle.s57_types.specs.Subfield.{is_plain, text_of, fixed_of, row_bytes};
ghost use Rattle.s57_types.specs.FieldRows.{dsid_row, dspm_row};
ghost use Rattle.s57_types.specs.RecordFields.{dsid_of_head, dspm_of_head, identification_length, parameter_fields, length_limit};
ghost use Rattle.s57_types.specs.Heads.{has_plain_texts};
ghost use Rattle.s57_types.specs.Fitness.{is_fit_head};
ghost use Rattle.record_fit.specs.Lengths.{saturated};

use crate::head_record::{self, STRUCTURE_FIELD, fixed_texts_length, texts_length};
use crate::length::{LENGTH_LIMIT, NUMBER_FIELD, is_within_limit, record_length};
use crate::text::is_text_plain;
use s57_types::{Head, HeadEdit};

/// Whether the two head records can be written: the lexical levels AALL and NALL are in range (S-57 Part 3, 2.4), no
/// text holds a control byte of the format, and neither record has more than 99,999 bytes.
#[tactic(auto, unfolding(s57_types::specs::Fitness::is_fit_head))]
pub fn head_fits(head: &Head) -> bool
    ensures { result ≡ is_fit_head head.now }
{
    head.aall <= 1
        && head.nall <= 2
        && are_identification_texts_plain(head)
        && is_text_plain(head.dspm_comt.as_slice())
        && is_identification_short(head)
        && are_parameters_short(head)
}

fn are_identification_texts_plain(head: &Head) -> bool
    ensures { result ≡ list_all is_plain (dsid_row (dsid_of_head head.now)) }
{
    are_number_texts_plain(head) && are_date_texts_plain(head) && are_description_texts_plain(head)
}

fn are_number_texts_plain(head: &Head) -> bool
    ensures { result ≡ (is_plain (text_of head.now.dsnm) && is_plain (text_of head.now.edtn) && is_plain (text_of head.now.updn)) }
{
    is_text_plain(head.dsnm.as_slice())
        && is_text_plain(head.edtn.as_slice())
        && is_text_plain(head.updn.as_slice())
}

fn are_date_texts_plain(head: &Head) -> bool
    ensures { result ≡ (is_plain (fixed_of head.now.uadt) && is_plain (fixed_of head.now.isdt) && is_plain (fixed_of head.now.sted)) }
{
    is_text_plain(&head.uadt) && is_text_plain(&head.isdt) && is_text_plain(&head.sted)
}

fn are_description_texts_plain(head: &Head) -> bool
    ensures { result ≡ (is_plain (text_of head.now.psdn) && is_plain (text_of head.now.pred) && is_plain (text_of head.now.dsid_comt)) }
{
    is_text_plain(head.psdn.as_slice())
        && is_text_plain(head.pred.as_slice())
        && is_text_plain(head.dsid_comt.as_slice())
}

fn is_identification_short(head: &Head) -> bool
    ensures { result ≡ nat_le (identification_length head.now) length_limit }
{
    identification_record_length(head) <= LENGTH_LIMIT
}

/// How many bytes the first head record takes when it is written, or the greatest number of a machine word.
pub fn identification_record_length(head: &Head) -> usize
    ensures { result ≡ saturated (identification_length head.now) }
{
    record_length(&[NUMBER_FIELD, identification_length(head), STRUCTURE_FIELD])
}

/// Whether no text of an edit of a head holds a control byte of the format.
pub fn has_plain_texts(edit: &HeadEdit) -> bool
    ensures { result ≡ has_plain_texts edit.now }
{
    is_text_plain(edit.edtn.as_slice())
        && is_text_plain(edit.updn.as_slice())
        && is_text_plain(&edit.uadt)
        && is_text_plain(&edit.isdt)
        && is_text_plain(edit.comt.as_slice())
}

fn are_parameters_short(head: &Head) -> bool
    ensures { result ≡ nat_le (record_length (field_lengths (parameter_fields 0 head.now))) length_limit }
{
    is_within_limit(&[NUMBER_FIELD, parameters_length(head)])
}

/// The length of the field DSID.
fn identification_length(head: &Head) -> usize
    ensures { result ≡ saturated (length (row_bytes (dsid_row (dsid_of_head head.now))) + 1) }
{
    head_record::identification_length(
        texts_length(head.dsnm.len(), head.edtn.len(), head.updn.len()),
        texts_length(head.psdn.len(), head.pred.len(), head.dsid_comt.len()),
        fixed_texts_length(&head.uadt, &head.isdt, &head.sted),
    )
}

/// The length of the field DSPM.
fn parameters_length(head: &Head) -> usize
    ensures { result ≡ saturated (length (row_bytes (dspm_row (dspm_of_head head.now))) + 1) }
{
    head_record::parameters_length(head.dspm_comt.len())
}
