//! The length of a record when it is written.

ghost use Rattle.std.specs.Prelude.{◌≡◌, ◌+◌, ◌*◌, ◌^◌, ◌<◌, ◌≤◌, ◌==◌, List, ℕ, [], ◌∷◌, ◌++◌, length, nat_le};
ghost use Rattle.frame_spec.specs.WrittenRecord.{digit_count, record_length};
ghost use Rattle.s57_types.specs.FieldRows.{attribute_row, partner_row};
ghost use Rattle.s57_types.specs.RecordFields.{terminator_of, written_length, length_limit};
ghost use Rattle.record_fit.specs.Lengths.{saturated, present, field_length, rows_length, is_within_limit, IsSizesOf};

use s57_types::{Attr, Feature, Partner, Rec, Vector};

/// The greatest length of a record in bytes.
pub const LENGTH_LIMIT: usize = 99_999;

/// The length of the field 0001: a number of two bytes and the field terminator.
pub const NUMBER_FIELD: usize = 3;

/// Whether the written record has at most 99,999 bytes; a feature's national attributes are at the level NALL.
pub fn is_short(rec: &Rec, nall: u8) -> bool
    ensures { result ≡ nat_le (written_length nall rec.now) length_limit }
{
    match rec {
        Rec::V(vector) => is_vector_short(vector),
        Rec::F(feature) => is_feature_short(feature, nall),
        Rec::H(_) => true,
    }
}

fn is_vector_short(vector: &Vector) -> bool
    ensures { (nall : ℕ) → result ≡ nat_le (written_length nall (Rec.V vector.now)) length_limit }
{
    is_within_limit(&[
        NUMBER_FIELD,
        9, // VRID
        attributes_length(vector.attrs.as_slice(), 0),
        fixed_rows_length(vector.ends.len(), 9),
        fixed_rows_length(vector.plane.len(), 8),
        fixed_rows_length(vector.deep.len(), 12),
    ])
}

fn is_feature_short(feature: &Feature, nall: u8) -> bool
    ensures { result ≡ nat_le (written_length nall (Rec.F feature.now)) length_limit }
{
    is_within_limit(&[
        NUMBER_FIELD,
        13, // FRID
        9, // FOID
        attributes_length(feature.attf.as_slice(), 0),
        attributes_length(feature.natf.as_slice(), nall),
        partners_length(feature.partners.as_slice()),
        fixed_rows_length(feature.places.len(), 8),
    ])
}

fn attributes_length(attrs: &[Attr], level: u8) -> usize
    ensures { result ≡ saturated (rows_length level (attribute_row level) attrs.now) }
{
    let terminator = terminator_length(level);
    let mut bytes: usize = 0;
    for attr in attrs {
        bytes = bytes
            .saturating_add(attr.value.len())
            .saturating_add(2 + terminator);
    }
    terminated(bytes, terminator)
}

/// The length of a unit or field terminator behind texts of a level.
fn terminator_length(level: u8) -> usize
    ensures { result ≡ length (terminator_of level) }
{
    if level == 2 { 2 } else { 1 }
}

fn partners_length(partners: &[Partner]) -> usize
    ensures { result ≡ saturated (rows_length 0 partner_row partners.now) }
{
    let mut bytes: usize = 0;
    for partner in partners {
        bytes = bytes.saturating_add(partner.comt.len()).saturating_add(10);
    }
    terminated(bytes, 1)
}

fn fixed_rows_length(count: usize, width: usize) -> usize
    ensures { result ≡ saturated (field_length (count * width) 1) }
{
    terminated(count.saturating_mul(width), 1)
}

/// The length of a field whose rows have so many bytes. A field without rows is left out.
fn terminated(bytes: usize, terminator: usize) -> usize
    ensures { result ≡ saturated (field_length bytes terminator) }
{
    if bytes == 0 {
        0
    } else {
        bytes.saturating_add(terminator)
    }
}

/// What the directory needs to know of the fields of a record.
#[derive(Clone, Copy)]
pub struct Sizes {
    pub count: usize,
    pub longest: usize,
    pub last_begins: usize,
    pub total: usize,
}

impl Sizes {
    ghost use Rattle.record_fit.specs.Lengths.{IsSizesOf};

    /// With one more field, the last so far.
    fn with(self, field: usize) -> Sizes
        requires { self.count + 1 < 2 ^ 64 }
        ensures { (lengths : List ℕ) → IsSizesOf lengths self → IsSizesOf (lengths ++ field ∷ []) result }
    {
        if field == 0 {
            return self;
        }
        Sizes {
            count: self.count + 1,
            longest: self.longest.max(field),
            last_begins: self.total,
            total: self.total.saturating_add(field),
        }
    }
}

/// Whether a record of fields of these lengths has at most 99,999 bytes. A length of 0 is of a field that is left out.
pub fn is_within_limit(lengths: &[usize]) -> bool
    requires { length lengths.now < 100 }
    ensures { result ≡ is_within_limit lengths.now }
{
    record_length(lengths) <= LENGTH_LIMIT
}

/// How many bytes a record of fields of these lengths has, or the greatest number of a machine word. A length of 0 is of a field that is left
/// out.
pub fn record_length(lengths: &[usize]) -> usize
    requires { length lengths.now < 100 }
    ensures { result ≡ saturated (record_length (present lengths.now)) }
{
    let mut sizes = Sizes {
        count: 0,
        longest: 0,
        last_begins: 0,
        total: 0,
    };
    for &field in lengths {
        sizes = sizes.with(field);
    }
    let entry = 4 + digit_count(sizes.longest) + digit_count(sizes.last_begins);
    (25 + sizes.count * entry).saturating_add(sizes.total)
}

/// How many decimal digits a number has.
fn digit_count(number: usize) -> usize
    ensures count { result ≡ digit_count number }
    ensures few { result ≤ 20 }
{
    if number < 10 {
        1
    } else {
        digit_count(number / 10) + 1
    }
}
