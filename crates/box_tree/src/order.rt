//! An order in which boxes that are near each other mostly stand near each other. What a tree answers doesn't rest on
//! it, its speed does.

use geometry_spec::Box4;

/// The bits of a number, a zero bit above each.
fn spread(number: u32) -> u64 {
    let mut bits = u64::from(number);
    bits = (bits | (bits << 16)) & 0x0000_FFFF_0000_FFFF;
    bits = (bits | (bits << 8)) & 0x00FF_00FF_00FF_00FF;
    bits = (bits | (bits << 4)) & 0x0F0F_0F0F_0F0F_0F0F;
    bits = (bits | (bits << 2)) & 0x3333_3333_3333_3333;
    (bits | (bits << 1)) & 0x5555_5555_5555_5555
}

/// The middle of a range of coordinates, counted from the least coordinate that there is.
fn middle(first: i32, last: i32) -> u32 {
    (first / 2 + last / 2).cast_unsigned() ^ (1 << 31)
}

/// The place of a box's middle on the Z-order curve: the bits of its latitude and its longitude in turn.
pub(crate) fn place_on_curve(around: Box4) -> u64 {
    let latitude = middle(around.south, around.north);
    let longitude = middle(around.west, around.east);
    (spread(latitude) << 1) | spread(longitude)
}
