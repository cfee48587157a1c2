//! How long a record is, and what its leader and its directory need to know of its fields.

ghost use Rattle.std.specs.Prelude.{◌≡◌, ◌<◌, ◌≤◌, MatchOption, sum};
ghost use Rattle.frame_spec.specs.WrittenRecord.{digit_count, record_length};
ghost use Rattle.frame_write.specs.OutFields.{lengths_of};
ghost use Rattle.frame_write.specs.Layouts.{IsSizesOf, IsLayoutOf};

use crate::field::OutField;

/// The greatest length of a record in bytes, which its leader gives with five digits.
const LENGTH_LIMIT: usize = 99_999;

/// The bytes of a leader and the terminator of a directory.
const LEADER_AND_TERMINATOR: usize = 25;

/// The lengths of fields: the greatest, where the last field begins in the field area, and their sum.
#[derive(Clone, Copy)]
pub struct Sizes {
    pub longest: usize,
    pub last_begins: usize,
    pub total: usize,
}

/// The lengths of these fields, or nothing where their sum is above that of any record.
fn measure(fields: &[OutField]) -> Option<Sizes>
    ensures { MatchOption result (LENGTH_LIMIT < sum (lengths_of fields.now)) (IsSizesOf (lengths_of fields.now)) }
{
    let mut sizes = Sizes {
        longest: 0,
        last_begins: 0,
        total: 0,
    };
    for field in fields {
        let length = field.bytes.len();
        if length > LENGTH_LIMIT - sizes.total {
            return None;
        }
        sizes = Sizes {
            longest: sizes.longest.max(length),
            last_begins: sizes.total,
            total: sizes.total + length,
        };
    }
    Some(sizes)
}

/// How many decimal digits a number of at most five has.
fn digit_count(number: usize) -> usize
    requires { number ≤ 99999 }
    ensures count { result ≡ digit_count number }
    ensures few { result ≤ 5 }
{
    if number < 10 {
        1
    } else {
        digit_count(number / 10) + 1
    }
}

/// What a leader says of its record: the digits of lengths and of positions in the directory, the base address of the
/// field area, and the length.
#[derive(Clone, Copy)]
pub struct Layout {
    pub length_digits: usize,
    pub position_digits: usize,
    pub base_address: usize,
    pub length: usize,
}

/// What the leader of these fields says, or nothing where the record would be too long.
pub fn layout_of(fields: &[OutField]) -> Option<Layout>
    ensures { MatchOption result (LENGTH_LIMIT < record_length (lengths_of fields.now)) (IsLayoutOf (lengths_of fields.now)) }
{
    let sizes = measure(fields)?;
    if fields.len() > LENGTH_LIMIT {
        return None;
    }
    let length_digits = digit_count(sizes.longest);
    let position_digits = digit_count(sizes.last_begins);
    let base_address = LEADER_AND_TERMINATOR + fields.len() * (4 + length_digits + position_digits);
    let length = base_address + sizes.total;
    if length > LENGTH_LIMIT {
        return None;
    }
    Some(Layout {
        length_digits,
        position_digits,
        base_address,
        length,
    })
}
