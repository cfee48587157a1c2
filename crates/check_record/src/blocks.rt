//! Segments of a line in blocks.

ghost use Rattle.std.specs.Prelude.{◌≡◌, ◌++◌, All, IfOk, OnOk};
ghost use Rattle.check_record.specs.Blocks.{IsBoxed, segments_in};

use check_words::Numbered;
use geometry_spec::Box4;
use line_boxes::box_of_line;
use std::alloc::{AllocError, Global};

/// How many segments a block has: about the root of the most that an edge has.
const BLOCK_LENGTH: usize = 64;

/// Segments of a line in a row, with the box around them.
#[derive(Drop)]
pub(crate) struct Block<'a> {
    pub(crate) around: Box4,
    pub(crate) segments: &'a [Numbered],
}

fn push_block<'a>(blocks: &mut Vec<Block<'a>>, segments: &'a [Numbered]) -> Result<(), AllocError>
    requires { All IsBoxed blocks.old.items }
    ensures boxed { OnOk result (All IsBoxed blocks.new.items) }
    ensures segments { OnOk result (segments_in blocks.new.items ≡ segments_in blocks.old.items ++ segments.now) }
{
    if let Some(around) = box_of_line(segments) {
        blocks.push(Block { around, segments })?;
    }
    Ok(())
}

/// Segments in blocks of a length, the last of which may be shorter.
pub(crate) fn blocks_of<'a>(
    alloc: Global,
    segments: &'a [Numbered],
) -> Result<Vec<Block<'a>>, AllocError>
    ensures boxed { IfOk result (λ blocks. All IsBoxed blocks.items) }
    ensures segments { IfOk result (λ blocks. segments_in blocks.items ≡ segments.now) }
{
    let mut blocks = Vec::new(alloc);
    let mut rest = segments;
    while !rest.is_empty() {
        let (block, after) = rest.split_at(rest.len().min(BLOCK_LENGTH));
        push_block(&mut blocks, block)?;
        rest = after;
    }
    Ok(blocks)
}
