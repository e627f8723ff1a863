// What a volume keeps of the last commit, and how it goes back to it.
ghost use Rattle.std.specs.Prelude.{◌≡◌, None};
ghost use Rattle.data_set_pairs.specs.Kept.{last_states, last_pages, last_free};

use crate::table::Table;
use hal_base::PartState;
use std::mem::replace;

/// Goes back to the states of the last commit.
pub(crate) fn take_back(states: &mut Vec<PartState>, kept: &mut Option<Vec<PartState>>)
    ensures states { states.new.items ≡ last_states kept.old states.old }
    ensures kept { kept.new ≡ None }
{
    if let Some(before) = kept.take() {
        *states = before;
    }
}

/// Goes back to the table of the last commit.
pub(crate) fn take_table_back(table: &mut Table, kept: &mut Option<Table>)
    ensures pages { table.new.pages.items ≡ last_pages kept.old table.old }
    ensures free { table.new.free.items ≡ last_free kept.old table.old }
    ensures kept { kept.new ≡ None }
{
    if let Some(before) = kept.take() {
        *table = before;
    }
}

/// Puts other states in the place of these, which are kept aside if they are those of the last commit.
pub(crate) fn put_states(
    states: &mut Vec<PartState>,
    changed: Vec<PartState>,
    kept: &mut Option<Vec<PartState>>,
)
    ensures states { states.new.items ≡ changed.items }
    ensures kept { last_states kept.new states.new ≡ last_states kept.old states.old }
{
    let before = replace(states, changed);
    if kept.is_none() {
        *kept = Some(before);
    }
}

/// Puts another table in the place of this one, if there is another. This one is kept aside if it is that of the last
/// commit.
pub(crate) fn put_table(table: &mut Table, changed: Option<Table>, kept: &mut Option<Table>)
    ensures pages { table.new.pages.items ≡ last_pages changed table.old }
    ensures free { table.new.free.items ≡ last_free changed table.old }
    ensures last_pages { last_pages kept.new table.new ≡ last_pages kept.old table.old }
    ensures last_free { last_free kept.new table.new ≡ last_free kept.old table.old }
{
    let Some(changed) = changed else {
        return;
    };
    let before = replace(table, changed);
    if kept.is_none() {
        *kept = Some(before);
    }
}
