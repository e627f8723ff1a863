// A site in memory that keeps its calls, and can tell what a stop at each moment might have left.
ghost use Rattle.std.specs.Prelude.{◌≡◌, ◌≤◌, ◌<◌, ◌-◌, ◌/◌, ◌↔◌, ◌+◌, ◌*◌, ◌^◌, ◌++◌, ◌∷◌, if◌then◌else◌};
ghost use Rattle.std.specs.Prelude.{None, Some, is_ok, ℕ, List, min, length, reverse, take, drop, All, Contains, IsTrue, IfOk, OnOk, OnErr, vec_len};
ghost use Rattle.std.specs.Option.{option_map};
ghost use Rattle.std.specs.Io.KnownBytes.{Appends};
ghost use Rattle.std.specs.Vec.{vec_capacity};
ghost use Rattle.hal_base.specs.Disk.{written, TearsTold};
ghost use Rattle.hal_base.specs.Fault.{HasCause, Rose};
ghost use Rattle.hal_base.specs.Said.{AppendsPart};
ghost use Rattle.hal_base.specs.Stops.{IsTold, LeavesOnly, TornFrom, SaidFrom};
ghost use Rattle.hal_disk.specs.Record.{seen_by, said_by, stopped_by, is_near, said_size, LeftAt};
ghost use Rattle.hal_disk.specs.ImageNow.{image_now};
ghost use Rattle.hal_disk.specs.RecordLaw.{said_last_is, reads_last};

use crate::Call;
use crate::image::{copied_from, put};
use crate::stop::{replayed, replayed_said};
use hal_base::{Bytes, Failed, List, Memory, Site};
use std::alloc::Global;

/// A site in memory. The calls whose numbers, from 1, it is given fail. What memory refuses is no call: it fails too,
/// and leaves no trace but the fault.
#[derive(Drop)]
pub struct MemSite {
    alloc: Global,
    first: Bytes,
    changed: Option<Vec<u8>>,
    said: Vec<u8>,
    history: Vec<Call>,
    failing: List<u64>,
    disk_faults: u64,
    say_faults: u64,
    ghost image_is: { image_now first changed ≡ seen_by first (reverse history.items) },
    ghost said_is: { said.items ≡ said_by (reverse history.items) },
    ghost near: { All (λ call. IsTrue (is_near call)) history.items },
}

impl MemSite {
    ghost use Rattle.hal_disk.specs.MemSite.{mem_image, mem_said, mem_calls, mem_calls_until, IsNewSite};

    pub fn new(alloc: Global, image: Bytes, failing: List<u64>) -> MemSite
        ensures { IsNewSite image failing result }
    {
        MemSite {
            alloc,
            first: image,
            changed: None,
            said: Vec::new(alloc),
            history: Vec::new(alloc),
            failing,
            disk_faults: 0,
            say_faults: 0,
        }
    }

    /// The image as it reads.
    pub fn image(&self) -> &[u8]
        ensures { result.now ≡ mem_image self.now }
    {
        match &self.changed {
            Some(image) => image,
            None => self.first.as_slice(),
        }
    }

    pub fn said(&self) -> &[u8]
        ensures { result.now ≡ mem_said self.now }
    {
        &self.said
    }

    /// How many calls were made; read_at, write_at, sync and say count alike.
    pub fn calls(&self) -> u64
        ensures { result ≡ length (mem_calls self.now) }
    {
        self.history.len() as u64
    }

    /// One image that a stop may leave when so many calls have returned and the next has not begun: what was
    /// written since the last sync is there where `kept`, and else each of its bytes is `torn`.
    pub fn stopped(&self, moment: u64, kept: bool, torn: u8) -> Result<Bytes, Memory>
        requires { moment ≤ length (mem_calls self.now) }
        ensures image { IfOk result (λ image. image ≡ stopped_by self.now.first kept torn (mem_calls_until self.now moment)) }
        ensures left { IfOk result (λ image. LeftAt self.now.first (mem_calls self.now) (2 * moment) image (said_by (mem_calls_until self.now moment))) }
    {
        let calls = self.calls_until(moment);
        replayed(self.alloc, self.first.as_slice(), calls, kept, torn)
    }

    /// What was said when so many calls have returned.
    pub fn said_at(&self, moment: u64) -> Result<Bytes, Memory>
        requires { moment ≤ length (mem_calls self.now) }
        ensures { IfOk result (λ text. text ≡ said_by (mem_calls_until self.now moment)) }
    {
        replayed_said(self.alloc, self.calls_until(moment))
    }

    fn calls_until(&self, moment: u64) -> &[Call]
        requires { moment ≤ length (mem_calls self.now) }
        ensures { result.now ≡ take moment self.now.history.items }
    {
        &self.history[..moment as usize]
    }
}

/// Makes room for one more call.
fn make_slot(calls: &mut Vec<Call>) -> Result<(), Memory>
    ensures items { calls.new.items ≡ calls.old.items }
    ensures room { OnOk result (vec_len calls.new < vec_capacity calls.new) }
{
    Ok(calls.reserve(1)?)
}

/// Adds a call, for which there is room.
fn note(calls: &mut Vec<Call>, call: Call)
    requires { vec_len calls.old < vec_capacity calls.old }
    ensures newest { reverse calls.new.items ≡ call ∷ reverse calls.old.items }
    ensures near { All (λ call. IsTrue (is_near call)) calls.old.items → IsTrue (is_near call) → All (λ call. IsTrue (is_near call)) calls.new.items }
{
    let _ = calls.push(call);
}

/// Whether the next call is one of those that fail.
fn fails_next(failing: &List<u64>, calls: &Vec<Call>) -> bool
    ensures { IsTrue result ↔ Contains failing.now (length (reverse calls.now.items) + 1) }
{
    failing.as_slice().contains(&(calls.len() as u64 + 1))
}

/// Writes to the image, which begins as `first`.
fn put_now(
    alloc: Global,
    first: &[u8],
    changed: &mut Option<Vec<u8>>,
    at: usize,
    content: &[u8],
) -> Result<(), Memory>
    requires { at + length content.now < 2 ^ 63 }
    ensures done { OnOk result (image_now first.now changed.new ≡ written at content.now (image_now first.now changed.old)) }
    ensures err { OnErr result (image_now first.now changed.new ≡ image_now first.now changed.old) }
{
    match changed {
        Some(image) => Ok(put(image, at, content)?),
        None => {
            let mut image = first.to_vec(alloc)?;
            put(&mut image, at, content)?;
            *changed = Some(image);
            Ok(())
        }
    }
}

impl Site for MemSite {
    ghost use Rattle.hal_disk.specs.MemSite.{mem_image, mem_said, mem_left, mem_left_now, mem_moment, FailsAsNamed};

    ghost image = { λ s. Some (image_now s.first s.changed) };

    ghost said = { λ s. Some s.said.items };

    ghost moment = { λ s. 2 * length (reverse s.history.items) };

    ghost left_at = { λ s moment image text. LeftAt s.first (reverse s.history.items) moment image text };

    ghost disk_faults = { λ s. s.disk_faults };

    ghost say_faults = { λ s. s.say_faults };

    ghost room = { λ _. None };

    ghost said_now = { λ s image text left. said_last_is s.first (reverse s.history.items) s.said.items image text s.said_is left };

    ghost reads_now = { λ s image text reads words left is_image is_said. reads_last s.first (reverse s.history.items) s.image_is s.said_is is_image is_said };

    /// It fails where the number of this call is among those that it was given, and at no other call.
    fn read_at(&mut self, at: u64, buf: &mut [u8]) -> Result<usize, Failed>
        requires { at + length buf.old ≤ 2 ^ 63 - 1 }
        ensures within { IfOk result (λ n. n ≤ length buf.new) }
        ensures bytes { IfOk result (λ n. take n buf.new ≡ take (length buf.new) (drop at (mem_image self.old))) }
        ensures image { Some (mem_image self.new) ≡ Some (mem_image self.old) }
        ensures said { Some (mem_said self.new) ≡ Some (mem_said self.old) }
        ensures stops { LeavesOnly (mem_moment self.old) (mem_moment self.new) (mem_left self.old) (mem_left self.new) (mem_left_now self.old) }
        ensures cause { HasCause self.old.disk_faults self.new.disk_faults result }
        ensures say_faults { self.new.say_faults ≡ self.old.say_faults }
        ensures named { FailsAsNamed Call.Read self.old self.new self.old.disk_faults self.new.disk_faults result }
    {
        match self.try_read() {
            Ok(true) => Ok(copied_from(self.image(), at, buf)),
            Ok(false) => Err(counted(&mut self.disk_faults)),
            Err(_) => Err(counted(&mut self.disk_faults)),
        }
    }

    /// It fails as a read does. One that is named writes nothing.
    fn write_at(&mut self, at: u64, content: &[u8]) -> Result<(), Failed>
        requires { at + length content.now ≤ 2 ^ 63 - 1 }
        ensures image { OnOk result (Some (mem_image self.new) ≡ option_map (written at content.now) (Some (mem_image self.old))) }
        ensures torn { OnErr result (TearsTold at (length content.now) (Some (mem_image self.old)) (Some (mem_image self.new))) }
        ensures unwritten { OnErr result (mem_image self.new ≡ mem_image self.old) }
        ensures said { Some (mem_said self.new) ≡ Some (mem_said self.old) }
        ensures stops { LeavesOnly (mem_moment self.old) (mem_moment self.new) (mem_left self.old) (mem_left self.new) (TornFrom (mem_left_now self.old) at (length content.now)) }
        ensures cause { HasCause self.old.disk_faults self.new.disk_faults result }
        ensures say_faults { self.new.say_faults ≡ self.old.say_faults }
        ensures named { FailsAsNamed (Call.Write at content.now (is_ok result)) self.old self.new self.old.disk_faults self.new.disk_faults result }
    {
        match self.try_write(at, content) {
            Ok(true) => Ok(()),
            Ok(false) => Err(counted(&mut self.disk_faults)),
            Err(_) => Err(counted(&mut self.disk_faults)),
        }
    }

    /// It fails as a read does.
    fn sync(&mut self) -> Result<(), Failed>
        ensures durable { OnOk result ((bytes text : List ℕ) → mem_left_now self.new bytes text → IsTold (Some (mem_image self.old)) bytes) }
        ensures image { Some (mem_image self.new) ≡ Some (mem_image self.old) }
        ensures said { Some (mem_said self.new) ≡ Some (mem_said self.old) }
        ensures stops { LeavesOnly (mem_moment self.old) (mem_moment self.new) (mem_left self.old) (mem_left self.new) (mem_left_now self.old) }
        ensures cause { HasCause self.old.disk_faults self.new.disk_faults result }
        ensures say_faults { self.new.say_faults ≡ self.old.say_faults }
        ensures named { FailsAsNamed (Call.Sync (is_ok result)) self.old self.new self.old.disk_faults self.new.disk_faults result }
    {
        match self.try_sync() {
            Ok(true) => Ok(()),
            Ok(false) => Err(counted(&mut self.disk_faults)),
            Err(_) => Err(counted(&mut self.disk_faults)),
        }
    }

    /// It fails as a read does. One that is named says half of the text.
    fn say(&mut self, text: &[u8]) -> Result<(), Failed>
        ensures said { OnOk result (Appends (Some (mem_said self.old)) (Some (mem_said self.new)) text.now) }
        ensures part { OnErr result (AppendsPart (Some (mem_said self.old)) (Some (mem_said self.new)) text.now) }
        ensures untold { Some (mem_said self.old) ≡ None → Some (mem_said self.new) ≡ None }
        ensures image { Some (mem_image self.new) ≡ Some (mem_image self.old) }
        ensures stops { LeavesOnly (mem_moment self.old) (mem_moment self.new) (mem_left self.old) (mem_left self.new) (SaidFrom (mem_left_now self.old) text.now) }
        ensures cause { HasCause self.old.say_faults self.new.say_faults result }
        ensures disk_faults { self.new.disk_faults ≡ self.old.disk_faults }
        ensures named { FailsAsNamed (Call.Say text.now (said_size (is_ok result) text.now)) self.old self.new self.old.say_faults self.new.say_faults result }
    {
        match self.try_say(text) {
            Ok(true) => Ok(()),
            Ok(false) => Err(counted(&mut self.say_faults)),
            Err(_) => Err(counted(&mut self.say_faults)),
        }
    }
}

// Each call is made, or memory refuses it, and then it is no call.
impl MemSite {
    ghost use Rattle.hal_disk.specs.MemSite.{mem_image, mem_said, mem_left, mem_left_now, mem_moment, IsMade, IsAsBefore};

    /// Makes a read, and answers whether it is to be done.
    fn try_read(&mut self) -> Result<bool, Memory>
        ensures made { IfOk result (λ done. IsMade Call.Read done self.old self.new) }
        ensures image { mem_image self.new ≡ mem_image self.old }
        ensures said { mem_said self.new ≡ mem_said self.old }
        ensures stops { OnOk result (LeavesOnly (mem_moment self.old) (mem_moment self.new) (mem_left self.old) (mem_left self.new) (mem_left_now self.old)) }
        ensures refused { OnErr result (IsAsBefore self.old self.new) }
    {
        make_slot(&mut self.history)?;
        let done = !fails_next(&self.failing, &self.history);
        note(&mut self.history, Call::Read);
        Ok(done)
    }

    /// Makes a write, and answers whether it was done.
    fn try_write(&mut self, at: u64, content: &[u8]) -> Result<bool, Memory>
        requires { at + length content.now ≤ 2 ^ 63 - 1 }
        ensures made { IfOk result (λ done. IsMade (Call.Write at content.now done) done self.old self.new) }
        ensures image { IfOk result (λ done. mem_image self.new ≡ (if done then written at content.now (mem_image self.old) else mem_image self.old)) }
        ensures said { mem_said self.new ≡ mem_said self.old }
        ensures stops { OnOk result (LeavesOnly (mem_moment self.old) (mem_moment self.new) (mem_left self.old) (mem_left self.new) (TornFrom (mem_left_now self.old) at (length content.now))) }
        ensures refused { OnErr result (IsAsBefore self.old self.new) }
    {
        let kept = Bytes::from_slice(self.alloc, content)?;
        make_slot(&mut self.history)?;
        let done = !fails_next(&self.failing, &self.history);
        let first = self.first.as_slice();
        put_if(
            self.alloc,
            done,
            first,
            &mut self.changed,
            at as usize,
            content,
        )?;
        note(
            &mut self.history,
            Call::Write {
                at,
                content: kept,
                done,
            },
        );
        Ok(done)
    }

    /// Makes a sync, and answers whether it was done.
    fn try_sync(&mut self) -> Result<bool, Memory>
        ensures made { IfOk result (λ done. IsMade (Call.Sync done) done self.old self.new) }
        ensures image { mem_image self.new ≡ mem_image self.old }
        ensures said { mem_said self.new ≡ mem_said self.old }
        ensures durable { IfOk result (λ done. IsTrue done → (bytes text : List ℕ) → mem_left_now self.new bytes text → bytes ≡ mem_image self.old) }
        ensures stops { OnOk result (LeavesOnly (mem_moment self.old) (mem_moment self.new) (mem_left self.old) (mem_left self.new) (mem_left_now self.old)) }
        ensures refused { OnErr result (IsAsBefore self.old self.new) }
    {
        make_slot(&mut self.history)?;
        let done = !fails_next(&self.failing, &self.history);
        note(&mut self.history, Call::Sync { done });
        Ok(done)
    }

    /// Makes a say, and answers whether it was done.
    fn try_say(&mut self, text: &[u8]) -> Result<bool, Memory>
        ensures made { IfOk result (λ done. IsMade (Call.Say text.now (said_size done text.now)) done self.old self.new) }
        ensures said { IfOk result (λ done. mem_said self.new ≡ mem_said self.old ++ take (said_size done text.now) text.now) }
        ensures image { mem_image self.new ≡ mem_image self.old }
        ensures stops { OnOk result (LeavesOnly (mem_moment self.old) (mem_moment self.new) (mem_left self.old) (mem_left self.new) (SaidFrom (mem_left_now self.old) text.now)) }
        ensures refused { OnErr result (IsAsBefore self.old self.new) }
    {
        let kept = Bytes::from_slice(self.alloc, text)?;
        make_slot(&mut self.history)?;
        let done = !fails_next(&self.failing, &self.history);
        let said = size_to_say(text, done);
        append_front(&mut self.said, text, said)?;
        note(&mut self.history, Call::Say { text: kept, said });
        Ok(done)
    }
}

/// Raises a count of faults.
fn counted(faults: &mut u64) -> Failed
    ensures exact { faults.new ≡ min (faults.old + 1) (2 ^ 64 - 1) }
    ensures later { faults.old ≤ faults.new }
    ensures rose { Rose faults.old faults.new }
{
    *faults = faults.saturating_add(1);
    Failed
}

/// Writes to the image where the call is to be done.
fn put_if(
    alloc: Global,
    done: bool,
    first: &[u8],
    changed: &mut Option<Vec<u8>>,
    at: usize,
    content: &[u8],
) -> Result<(), Memory>
    requires { at + length content.now < 2 ^ 63 }
    ensures put { OnOk result (image_now first.now changed.new ≡ (if done then written at content.now (image_now first.now changed.old) else image_now first.now changed.old)) }
    ensures err { OnErr result (image_now first.now changed.new ≡ image_now first.now changed.old) }
{
    if done {
        put_now(alloc, first, changed, at, content)?;
    }
    Ok(())
}

/// How many bytes of a text are said: all, or half of them where the call is to fail.
fn size_to_say(text: &[u8], done: bool) -> usize
    ensures size { result ≡ said_size done text.now }
    ensures within { result ≤ length text.now }
{
    if done { text.len() } else { text.len() / 2 }
}

/// Adds the first bytes of a text.
fn append_front(said: &mut Vec<u8>, text: &[u8], count: usize) -> Result<(), Memory>
    requires { count ≤ length text.now }
    ensures said { OnOk result (said.new.items ≡ said.old.items ++ take count text.now) }
    ensures err { OnErr result (said.new.items ≡ said.old.items) }
{
    Ok(said.extend_from_slice(&text[..count])?)
}
