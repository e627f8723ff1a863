// Units of a reorganization: how far its cursor has come, and how it moves.
ghost use Rattle.std.specs.Prelude.{◌≡◌, ◌+◌, ◌^◌, ◌<◌};
ghost use Rattle.hal_schema.specs.Roots.{anchor_place};
ghost use Rattle.reorg_cursor.specs.Events.{groups_asked};
ghost use Rattle.reorg_cursor.specs.Groups.{is_done, cursor_behind};

use call_text::Command;
use hal_base::{Cursor, Key, PartState};
use hal_schema::{Schema, anchor, schemas_are_kept, select};

/// How many groups a unit of FINISH copies at most.
const FINISH_GROUPS: u16 = 16;

/// How many groups the event of a command copies at most.
pub fn groups_asked(command: Command) -> u16
    ensures { result ≡ groups_asked command }
{
    match command {
        Command::Step(groups) => groups,
        Command::Finish => FINISH_GROUPS,
        Command::Start | Command::Pause | Command::Resume | Command::Query => 0,
    }
}

/// Whether the record of a root key is at or before the cursor: it stands in the output data sets then, else in the
/// input data sets.
pub fn is_done(schema: &Schema, cursor: &Cursor, key: &[u8]) -> bool
    ensures { result ≡ is_done schema.now cursor.now key.now }
{
    match cursor {
        Cursor::Front => false,
        Cursor::At(last) => key.cmp(last.as_slice()).is_le(),
        Cursor::Anchors(done) => anchor_in(schema, key) < *done,
    }
}

/// Moves the cursor behind the records of a unit, of which `last` is the last root's key; an empty unit has none.
pub fn move_cursor(state: &mut PartState, schema: &Schema, last: Option<Key>)
    ensures { state.new ≡ record state.old { cursor = cursor_behind schema.now state.old.cursor last } }
{
    let Some(key) = last else {
        return;
    };
    state.cursor = if schema.phdam {
        Cursor::Anchors(anchor_in(schema, key.as_slice()) + 1)
    } else {
        Cursor::At(key)
    };
}

/// Which of its partition's root anchors a root key has; 0 where the partition has none.
fn anchor_in(schema: &Schema, key: &[u8]) -> u32
    ensures place { result ≡ anchor_place schema.now key.now }
    ensures within { result + 1 < 2 ^ 32 }
{
    schemas_are_kept();
    let Some(place) = select(schema, key) else {
        return 0;
    };
    match schema.parts.as_slice().get(usize::from(place)) {
        Some(part) if schema.phdam => anchor(key, part.anchors),
        _ => 0,
    }
}
