// The journal: the blocks of the last commit, and the changes that are staged.
ghost use Rattle.std.specs.Prelude.{◌≡◌, ◌≤◌, ◌^◌, ◌<◌, ◌%◌, All, ℕ, length, true, refl, ◌==◌, IsTrue, IfOk, IfErr, MatchResult};
ghost use Rattle.std.specs.Option.{option_map};
ghost use Rattle.hal_base.specs.Stops.{Read};
ghost use Rattle.block_journal.specs.Commit.{last_byte};
ghost use Rattle.block_journal.specs.Redo.{are_changes, put_all, redone};
ghost use Rattle.block_journal.specs.Opened.{IsOpened, IsRefused, LeavesSite, SyncsWithin, SyncsOrStops};
ghost use Rattle.block_journal.specs.Stands.{Stands, told_where, say_room};
ghost use Rattle.block_journal.specs.Steady.{IsSteady};

use crate::change::Changes;
use crate::fault::{OpenFault, OpenWhy};
use crate::open::load;
use crate::protocol::commit_changes;
use crate::staged::{copy_block, make_body, make_changes};
use hal_base::{BLOCK, Blocks, Failed, JournalFault, Live, Site, StageFault, Store};
use std::alloc::Global;
use std::collections::BTreeMap;

/// Blocks that stand in an image from `first` on, with their journal behind them. All of them are held in
/// memory, and beside them what is staged.
#[derive(Drop)]
pub struct Journal<T: Site> {
    site: T,
    first: u64,
    count: u32,
    kept: Vec<[u8; BLOCK]>,
    staged: Changes,
    fetches: u64,
    live: bool,
    ghost behind: { 8192 ≤ first },
    ghost near: { first ≤ 2 ^ 30 },
    ghost counted: { length kept.items ≡ count },
    ghost whole: { All (λ block. length block ≡ 4096) kept.items },
    ghost rise: { are_changes 0 count staged.entries ≡ true },
    ghost stands: { IsTrue live → Stands first count kept.items (T.image site) (T.left_at site (T.moment site)) },
}

impl<T: Site> Journal<T> {
    /// Opens the blocks of a site: `count` of them, the first at the byte `first`. It begins with a sync. An open
    /// journal is redone; an image with a closed gate that ends before its last block is filled up with zeros.
    pub fn open(
        alloc: Global,
        mut site: T,
        first: u64,
        count: u32,
    ) -> Result<Journal<T>, OpenFault<T>>
        requires multiple { first % 4096 ≡ 0 }
        requires behind { 8192 ≤ first }
        requires near { first ≤ 2 ^ 30 }
        ensures opened { IfOk result (λ journal.
            IsOpened first count (T.image site) (T.image journal.site) journal.first (⟦<Journal<T> as Blocks>⟧.seen journal)) }
        ensures refused { IfErr result (λ fault.
            IsRefused first count (T.image site) (T.image fault.site) (T.disk_faults site) (T.disk_faults fault.site) fault.why) }
        ensures leaves { MatchResult result
            (λ journal. LeavesSite T.image T.said T.disk_faults T.say_faults T.room first count site journal.site)
            (λ fault. LeavesSite T.image T.said T.disk_faults T.say_faults T.room first count site fault.site) }
        ensures stops { MatchResult result
            (λ journal. SyncsWithin T.image T.moment T.left_at first count site journal.site)
            (λ fault. SyncsOrStops T.image T.moment T.left_at first count site fault.site) }
    {
        match load(alloc, &mut site, first, count) {
            Ok(kept) => Ok(Journal {
                site,
                first,
                count,
                kept,
                staged: BTreeMap::new(alloc),
                fetches: 0,
                live: true,
            }),
            Err(fault) => Err(OpenFault {
                why: fault.why(),
                site,
            }),
        }
    }

    /// The site, with no further call.
    pub fn close(self) -> T
        ensures { result ≡ self.site }
    {
        let Journal {
            site,
            first: _,
            count: _,
            kept: _,
            staged: _,
            fetches: _,
            live: _,
        } = self;
        site
    }
}

impl<T: Site> Live for Journal<T> {
    ghost live = { λ j. j.live };

    fn is_live(&self) -> bool {
        self.live
    }
}

impl<T: Site> Blocks for Journal<T> {
    ghost use Rattle.block_journal.specs.JournalLaw.{told_shaped, alike, clean_list, standing_is, stands_exactly, steady_same, steady_more};

    ghost seen = { λ j. record {
      list = told_where (T.image j.site) (put_all j.staged.entries j.kept.items);
      committed = told_where (T.image j.site) j.kept.items;
      standing = option_map (redone j.first j.count) (T.image j.site);
      number = j.count;
      said = T.said j.site;
      moment = T.moment j.site;
      left_at = Read (redone j.first j.count) (T.left_at j.site);
      disk_faults = T.disk_faults j.site;
      say_faults = T.say_faults j.site;
      room = say_room (last_byte j.first j.count) (T.room j.site);
      fetches = j.fetches;
      clean = length j.staged.entries == 0;
      live = j.live;
    } };

    ghost steady = { λ a b. IsSteady a.first b.first a.count b.count (T.image a.site) (T.image b.site) (T.moment a.site) (T.moment b.site) (T.left_at a.site) (T.left_at b.site) };

    ghost alive = { λ j. refl };

    ghost shaped = { λ j. told_shaped (T.image j.site) j.count j.staged.entries j.kept.items j.rise j.counted j.whole };

    ghost told_alike = { λ j. alike (T.image j.site) (put_all j.staged.entries j.kept.items) j.kept.items };

    ghost clean_is = { λ j clean. clean_list (T.image j.site) j.staged.entries j.kept.items clean };

    ghost stands = { λ j live. standing_is j.first j.count j.kept.items (T.image j.site) (T.left_at j.site (T.moment j.site)) (j.stands live) };

    ghost exact = { λ j live. stands_exactly (T.moment j.site) (T.said j.site) (T.left_at j.site) (j.stands live) (λ bytes text left. T.said_now j.site bytes text left) };

    ghost steady_none = { λ j. steady_same j.first j.count (T.image j.site) (T.moment j.site) (T.left_at j.site) };

    ghost steady_then = { λ a b c first second. steady_more first second };

    fn count(&self) -> u32 {
        self.count
    }

    fn fetch(&mut self, n: u32, into: &mut [u8; BLOCK]) -> Result<(), Failed> {
        copy_block(&self.staged, &self.kept, n, into);
        self.fetches = self.fetches.saturating_add(1);
        Ok(())
    }

    fn stage(&mut self, n: u32, from: &[u8; BLOCK]) -> Result<(), StageFault> {
        match self.staged.insert(n, *from) {
            Ok(_) => Ok(()),
            Err(_) => Err(StageFault::Memory),
        }
    }
}

impl<T: Site> Store for Journal<T> {
    fn commit(&mut self) -> Result<(), JournalFault> {
        let count = self.count;
        if self.staged.is_empty() {
            return Ok(());
        }
        let Ok(body) = make_body(*self.kept.allocator(), &self.staged) else {
            return Err(JournalFault::Memory);
        };
        let done = commit_changes(&mut self.site, self.first, count, &self.staged, &body);
        if done.is_err() {
            self.live = false;
            return Err(JournalFault::DiskFault);
        }
        make_changes(&mut self.kept, &self.staged);
        self.staged.clear();
        Ok(())
    }

    fn forget(&mut self) {
        self.staged.clear();
    }

    fn say(&mut self, text: &[u8]) -> Result<(), Failed> {
        self.site.say(text)
    }
}
