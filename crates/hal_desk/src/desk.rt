// The top call: words, a source and a site in, a status and the site out.
ghost use Rattle.std.specs.Prelude.{◌≡◌, ◌≤◌, Some, IsTrue, length, map, codes};
ghost use Rattle.std.specs.String.{string_bytes};
ghost use Rattle.hal_base.specs.Fault.{Rose};

use crate::define::define;
use crate::list_run::run_list;
use crate::sample::kdb;
use crate::{Command, read_command};
use hal_base::{List, Memory, Site, Source};
use std::alloc::Global;

/// A command's exit status, and the site that it was run on.
#[derive(Drop)]
pub struct Ended<T> {
    pub status: u8,
    pub site: T,
}

ghost use Rattle.hal_desk.specs.Words.{command_of};
ghost use Rattle.script_runs.specs.Script.{limit};
ghost use Rattle.hal_desk.specs.Outside.{LeavesImage, outside, site_view};
ghost use Rattle.hal_desk.specs.Says.{SaysLine};
ghost use Rattle.hal_desk.specs.Top.{Did, EndsWell, RanCall, reads_source};

/// Runs one command. Words that are no command are refused, and nothing is read. `define VOLUME` checks the texts of a
/// definition; `call VOLUME` answers a script over the sample database KDB, which begins empty.
pub fn run<S: Source, T: Site>(alloc: Global, words: &[String], source: &mut S, site: T) -> Ended<T>
    // What the command did, and its status. Of `call`: what was said is the text of a run of the script's lines from the
    // empty list of KDB.
    ensures did { Did (command_of (map string_bytes words.now))
        (outside S.Source T.Site source.old site)
        (outside S.Source T.Site source.new result.site)
        result.status }
    ensures leaves { LeavesImage (site_view T.Site site) (site_view T.Site result.site) }

    // Where the source tells a text within the limit and no count rose, the command ends well, or memory ran out.
    ensures complete { (text : _) → S.left source.old ≡ Some text → length text ≤ limit
        → (Rose (S.read_faults source.old) (S.read_faults source.new) → ⊥) → (Rose (T.say_faults site) (T.say_faults result.site) → ⊥)
        → EndsWell (command_of (map string_bytes words.now)) result.status }

    ensures unread { (IsTrue (reads_source (command_of (map string_bytes words.now))) → ⊥) → source.new ≡ source.old }

    ensures later { (S.read_faults source.old ≤ S.read_faults source.new) × (T.say_faults site ≤ T.say_faults result.site) }
{
    match read_command(alloc, words) {
        Err(Memory) => Ended { status: 8, site },
        Ok(None) => say_line(site, b"refused usage\n", 1),
        Ok(Some(command)) => obey(alloc, &command, source, site),
    }
}

fn obey<S: Source, T: Site>(alloc: Global, command: &Command, source: &mut S, site: T) -> Ended<T>
    ensures did { Did (Some command.now)
        (outside S.Source T.Site source.old site)
        (outside S.Source T.Site source.new result.site)
        result.status }
    ensures leaves { LeavesImage (site_view T.Site site) (site_view T.Site result.site) }
    ensures unread { (IsTrue (reads_source (Some command.now)) → ⊥) → source.new ≡ source.old }
    ensures later { (S.read_faults source.old ≤ S.read_faults source.new) × (T.say_faults site ≤ T.say_faults result.site) }
{
    match command {
        Command::Define { .. } => define(alloc, source, site),
        Command::Call { .. } => call(alloc, source, site),
        Command::Load { .. } => not_built(site),
        Command::Unload { .. } => not_built(site),
        Command::Report { .. } => not_built(site),
        Command::Reorg { .. } => not_built(site),
        Command::Make { .. } => not_built(site),
        Command::Exercise { .. } => not_built(site),
    }
}

// A command of the table that this version doesn't have yet.
fn not_built<T: Site>(site: T) -> Ended<T>
    ensures leaves { LeavesImage (site_view T.Site site) (site_view T.Site result.site) }
    ensures says { SaysLine (codes "refused not built\n") 11 (site_view T.Site site) (site_view T.Site result.site) result.status }
    ensures later { T.say_faults site ≤ T.say_faults result.site }
{
    say_line(site, b"refused not built\n", 11)
}

/// Answers the script of the source over the sample database KDB, which begins empty.
fn call<S: Source, T: Site>(alloc: Global, source: &mut S, site: T) -> Ended<T>
    ensures ran { RanCall
        (outside S.Source T.Site source.old site)
        (outside S.Source T.Site source.new result.site)
        result.status }
    ensures leaves { LeavesImage (site_view T.Site site) (site_view T.Site result.site) }
    ensures later { (S.read_faults source.old ≤ S.read_faults source.new) × (T.say_faults site ≤ T.say_faults result.site) }
{
    match kdb(alloc) {
        Err(Memory) => Ended { status: 8, site },
        Ok(schema) => run_list(alloc, &schema, List::new(alloc), source, site),
    }
}

/// Says the one line of a command.
pub(crate) fn say_line<T: Site>(mut site: T, line: &[u8], status: u8) -> Ended<T>
    ensures leaves { LeavesImage (site_view T.Site site) (site_view T.Site result.site) }
    ensures says { SaysLine line.now status (site_view T.Site site) (site_view T.Site result.site) result.status }
    ensures later { T.say_faults site ≤ T.say_faults result.site }
{
    match site.say(line) {
        Ok(()) => Ended { status, site },
        Err(_) => Ended { status: 6, site },
    }
}
