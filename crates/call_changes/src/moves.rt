// What a REPL does to the entries of its row in the indexes.
ghost use Rattle.std.specs.Prelude.{◌≡◌, ◌+◌, ◌<◌, length, if◌then◌else◌, IfOk, IfSome, IsErrOf, IsTrue};
ghost use Rattle.std.specs.List.{slice_get};
ghost use Rattle.std.specs.Option.{ForSome};
ghost use Rattle.position_state.specs.AfterChange.{LooksUpTo};
ghost use Rattle.call_changes.specs.Moves.{moved_entries, moves_freely};

use crate::entry::moved_key;
use hal_base::Bytes;
use hal_schema::Schema;
use position_state::{Spot, Walk, WalkFault};
use std::alloc::Global;

/// How many entries of a row get another key with this content; none where another entry has one of these keys.
pub(crate) fn moved_entries<W: Walk>(
    alloc: Global,
    schema: &Schema,
    row: &Spot,
    content: &Bytes,
    walk: &mut W,
) -> Result<Option<u8>, WalkFault>
    requires live { IsTrue (W.seen walk.old).live }
    requires schema { (W.seen walk.old).schema ≡ schema.now }
    ensures moved { IfOk result (λ moved. IfSome (W.seen walk.old).forest (λ rows.
        moved ≡ moved_entries schema.now.types rows row.now content.now schema.now.indexes)) }
    ensures looked { LooksUpTo (length schema.now.indexes) (IsErrOf result WalkFault.Failed) (W.seen walk.old) (W.seen walk.new) }
{
    let count = schema.indexes.len() as u8;
    let mut moved = 0;
    for place in 0..count {
        let Some(moves) = moves_freely(alloc, schema, place, row, content, walk)? else {
            return Ok(None);
        };
        moved = counted(moved, moves);
    }
    Ok(Some(moved))
}

fn counted(moved: u8, moves: bool) -> u8
    requires room { moved < 255 }
    ensures { result ≡ (if moves then moved + 1 else moved) }
{
    if moves { moved + 1 } else { moved }
}

/// Whether a row's entry in one index gets another key; none where another entry has that key.
fn moves_freely<W: Walk>(
    alloc: Global,
    schema: &Schema,
    place: u8,
    row: &Spot,
    content: &Bytes,
    walk: &mut W,
) -> Result<Option<bool>, WalkFault>
    requires live { IsTrue (W.seen walk.old).live }
    requires schema { (W.seen walk.old).schema ≡ schema.now }
    requires within { place < length schema.now.indexes }
    ensures moves { IfOk result (λ moves. IfSome (W.seen walk.old).forest (λ rows.
        ForSome (slice_get schema.now.indexes place) (λ index. moves ≡ moves_freely schema.now.types rows row.now content.now index))) }
    ensures looked { LooksUpTo 1 (IsErrOf result WalkFault.Failed) (W.seen walk.old) (W.seen walk.new) }
{
    let index = &schema.indexes.as_slice()[place as usize];
    match moved_key(alloc, index, row, content)? {
        None => Ok(Some(false)),
        Some(key) => match walk.taken(place, key.as_slice())? {
            None => Ok(Some(true)),
            Some(_) => Ok(None),
        },
    }
}
