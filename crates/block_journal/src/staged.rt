// The blocks that are staged, and the list of blocks that they are put into.
ghost use Rattle.std.specs.Prelude.{◌≡◌, ◌^◌, ◌<◌, length, slice_get, true, Some, IfOk};
ghost use Rattle.block_journal.specs.Placing.{AreWhole};
ghost use Rattle.block_journal.specs.Redo.{put_all, body_bytes, are_changes};

use crate::change::Changes;
use hal_base::{BLOCK, Memory};
use std::alloc::Global;

/// The block of this number, as the changes make it.
pub(crate) fn copy_block(
    changes: &Changes,
    blocks: &[[u8; BLOCK]],
    number: u32,
    into: &mut [u8; BLOCK],
)
    requires below { number < length blocks.now }
    requires rise { are_changes 0 (length blocks.now) changes.now.entries ≡ true }
    ensures { slice_get (put_all changes.now.entries blocks.now) number ≡ Some into.new }
{
    match changes.get(&number) {
        Some(block) => *into = *block,
        None => *into = blocks[number as usize],
    }
}

/// Makes the changes.
pub(crate) fn make_changes(blocks: &mut Vec<[u8; BLOCK]>, changes: &Changes)
    requires { AreWhole (length blocks.old.items) changes.now.entries }
    ensures { blocks.new.items ≡ put_all changes.now.entries blocks.old.items }
{
    for (number, block) in changes {
        blocks[*number as usize] = *block;
    }
}

/// The bytes of the journal's body for these changes.
pub(crate) fn make_body(alloc: Global, changes: &Changes) -> Result<Vec<u8>, Memory>
    requires { length changes.now.entries < 2 ^ 32 }
    ensures { IfOk result (λ body. body.items ≡ body_bytes changes.now.entries) }
{
    let mut body = Vec::new(alloc);
    body.extend_from_slice(&(changes.len() as u32).to_be_bytes())?;
    body.extend_from_slice(&1u32.to_be_bytes())?;
    for (number, block) in changes {
        body.extend_from_slice(&number.to_be_bytes())?;
        body.extend_from_slice(block)?;
    }
    Ok(body)
}
