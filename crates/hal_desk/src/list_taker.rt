// The taker of lines over one list, with no volume under it.
ghost use Rattle.std.specs.Prelude.{◌≡◌, ◌+◌, ◌≤◌, [], true, length, IfErr, IfOk, IsSomeAnd, IsTrue, OnOk, refl};
ghost use Rattle.std.specs.Io.KnownBytes.{Appends};
ghost use Rattle.hal_base.specs.Fault.{HasCause};
ghost use Rattle.hal_base.specs.Room.{HasRoom};
ghost use Rattle.hal_base.specs.Said.{AppendsPart};
ghost use Rattle.hal_base.specs.Stops.{LeavesOnly, SaidFrom};
ghost use Rattle.hal_schema.specs.Forest.{is_forest};
ghost use Rattle.hal_desk.specs.Outside.{LeavesImage, site_view};

use crate::CallList;
use hal_base::{List, Live, Memory, PartState, Site};
use hal_schema::{Row, Schema};
use script_runs::{EngineFault, LineTaker};
use std::alloc::Global;

/// One list of segments with its sessions, and the site on which replies are said.
#[derive(Drop)]
pub struct ListTaker<'a, T> {
    alloc: Global,
    list: CallList<'a>,
    site: T,
}

impl<'a, T: Site> ListTaker<'a, T> {
    ghost use Rattle.hal_desk.specs.Lists.{site_of, start_of, state_of};

    /// The rows, with no session open.
    pub fn new(alloc: Global, schema: &'a Schema, rows: List<Row>, site: T) -> ListTaker<'a, T>
        requires forest { IsTrue (is_forest schema.now rows) }
        requires no_index { schema.now.indexes ≡ [] }
        ensures state { state_of result.list ≡ start_of rows }
        ensures schema { result.list.schema.now ≡ schema.now }
        ensures site { site_of result ≡ site }
    {
        ListTaker {
            alloc,
            list: CallList::new(alloc, schema, rows),
            site,
        }
    }

    /// The rows are a forest under the schema.
    pub fn has_a_forest(&self)
        ensures { IsTrue (is_forest self.now.list.schema.now (state_of self.now.list).forest) }
    {
        self.list.has_a_forest();
    }

    pub fn into_site(self) -> T
        ensures { result ≡ site_of self.entry }
    {
        self.site
    }
}

impl<T: Site> Live for ListTaker<'_, T> {
    ghost live = { λ taker. true };

    fn is_live(&self) -> bool {
        true
    }
}

impl<T: Site> LineTaker for ListTaker<'_, T> {
    ghost use Rattle.call_runs.specs.declared.state.CallState.{CallState};
    ghost use Rattle.hal_desk.specs.Lists.{list_seen, meaning};
    ghost use Rattle.hal_desk.specs.Outside.{LeavesImage, site_view};
    ghost use Rattle.hal_desk.specs.ListLaws.{leaves_told, image_stays, image_then};

    type Schema = Schema;

    type State = call_runs::CallState;

    ghost meaning = { λ schema. meaning schema };

    ghost schema = { λ taker. taker.list.schema.now };

    ghost seen = { λ taker. list_seen T.Site taker };

    ghost steady = { λ a b. LeavesImage (site_view T.Site a.site) (site_view T.Site b.site) };

    ghost units_left = { λ taker. 0 };

    ghost alive = { λ taker. refl };

    ghost leaves_told = { λ taker ready. leaves_told _ _ _ _ _ _ (T.said_now taker.site) };

    ghost steady_none = { λ taker. image_stays _ };

    ghost steady_then = { λ a b c first second. image_then first second };

    fn line(&mut self, script: Option<u16>, number: u32, text: &[u8]) -> Result<bool, EngineFault> {
        let reply = self.list.take(script, number, text)?;
        say(&mut self.site, reply.as_slice())?;
        Ok(true)
    }

    fn rows(&mut self) -> Result<List<Row>, EngineFault> {
        Ok(copied_rows(self.alloc, self.list.rows())?)
    }

    fn states(&mut self) -> Result<List<PartState>, EngineFault> {
        Ok(List::new(self.alloc))
    }

    fn free_now(&self) -> u32 {
        65_536
    }
}

fn copied_rows(alloc: Global, rows: &[Row]) -> Result<List<Row>, Memory>
    ensures { IfOk result (λ copies. copies ≡ rows.now) }
{
    let mut copies = List::new(alloc);
    for row in rows {
        copies.push(Row {
            name: row.name,
            code: row.code,
            parent: row.parent,
            content: row.content.copy()?,
        })?;
    }
    Ok(copies)
}

// Says a reply; a silent line has none.
fn say<T: Site>(site: &mut T, text: &[u8]) -> Result<(), EngineFault>
    ensures said { OnOk result (Appends (T.said site.old) (T.said site.new) text.now) }
    ensures fault { IfErr result (λ fault. (fault ≡ EngineFault.SayFault) × AppendsPart (T.said site.old) (T.said site.new) text.now) }
    ensures leaves { LeavesImage (site_view T.Site site.old) (site_view T.Site site.new) }
    ensures stops { LeavesOnly (T.moment site.old) (T.moment site.new) (T.left_at site.old) (T.left_at site.new)
        (SaidFrom (T.left_at site.old (T.moment site.old)) text.now) }
    ensures cause { HasCause (T.say_faults site.old) (T.say_faults site.new) result }
    ensures room { HasRoom (T.room site.old) (T.room site.new) (T.say_faults site.old) (T.say_faults site.new)
        (λ room. IsSomeAnd (T.said site.old) (λ before. length before + length text.now ≤ room.1)) }
{
    if text.is_empty() {
        return Ok(());
    }
    match site.say(text) {
        Ok(()) => Ok(()),
        Err(_) => Err(EngineFault::SayFault),
    }
}
