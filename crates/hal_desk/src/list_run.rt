// A script over a list of segments in memory.
ghost use Rattle.std.specs.Prelude.{◌≡◌, ◌≤◌, ◌⊎◌, [], IsTrue, Some, length};
ghost use Rattle.hal_base.specs.Fault.{Rose};
ghost use Rattle.hal_schema.specs.Forest.{is_forest};
ghost use Rattle.script_runs.specs.Script.{limit};
ghost use Rattle.hal_desk.specs.Outside.{LeavesImage, outside, site_view};
ghost use Rattle.hal_desk.specs.Ran.{RanList};

use crate::ListTaker;
use crate::desk::Ended;
use hal_base::{List, Site, Source};
use hal_schema::{Row, Schema};
use script_runs::run_script;
use std::alloc::Global;

/// Answers the script of a source over these rows, which are gone with the run. The status is 0 at the end of the source, 5
/// after a failed read, 6 after a failed say, 8 where memory was wanting, 10 where the source is too long.
pub fn run_list<S: Source, T: Site>(
    alloc: Global,
    schema: &Schema,
    rows: List<Row>,
    source: &mut S,
    site: T,
) -> Ended<T>
    requires forest { IsTrue (is_forest schema.now rows) }
    requires no_index { schema.now.indexes ≡ [] }
    ensures ran { RanList schema.now rows
        (outside S.Source T.Site source.old site)
        (outside S.Source T.Site source.new result.site)
        result.status }
    ensures leaves { LeavesImage (site_view T.Site site) (site_view T.Site result.site) }

    // Where the source tells a text within the limit and no count rose, the script is done to its end, or memory ran out.
    ensures complete { (text : _) → S.left source.old ≡ Some text → length text ≤ limit
        → (Rose (S.read_faults source.old) (S.read_faults source.new) → ⊥) → (Rose (T.say_faults site) (T.say_faults result.site) → ⊥)
        → (result.status ≡ 0) ⊎ (result.status ≡ 8) }

    ensures later { (S.read_faults source.old ≤ S.read_faults source.new) × (T.say_faults site ≤ T.say_faults result.site) }
{
    let mut taker = ListTaker::new(alloc, schema, rows, site);
    let ending = run_script(alloc, source, &mut taker);
    taker.has_a_forest();
    Ended {
        status: ending.status(),
        site: taker.into_site(),
    }
}
