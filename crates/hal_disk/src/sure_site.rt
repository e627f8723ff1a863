// A site in memory that tells its room.
ghost use Rattle.std.specs.Prelude.{◌≡◌, ◌≤◌, ◌+◌, ◌-◌, ◌^◌, ℕ, List, None, Some, [], length, take, drop, IfOk, OnOk, OnErr, IsOk};
ghost use Rattle.std.specs.Option.{option_map};
ghost use Rattle.std.specs.Io.KnownBytes.{Appends};
ghost use Rattle.std.specs.Vec.{vec_capacity};
ghost use Rattle.hal_base.specs.Disk.{written, TearsTold};
ghost use Rattle.hal_base.specs.Fault.{HasCause};
ghost use Rattle.hal_base.specs.Room.{HasRoom};
ghost use Rattle.hal_base.specs.Said.{AppendsPart};
ghost use Rattle.hal_base.specs.Stops.{LeavesOnly, TornFrom, SaidFrom};
ghost use Rattle.hal_disk.specs.Exact.{FailsPast};

use crate::image::{copied_from, put};
use hal_base::{Bytes, Failed, Memory, Site};
use std::alloc::Global;

/// A site in memory that keeps no record of its calls, so it tells its content and no moment. Within the room
/// that was reserved no call fails.
#[derive(Drop)]
pub struct SureSite {
    image: Vec<u8>,
    said: Vec<u8>,
    image_room: u64,
    said_room: u64,
    disk_faults: u64,
    say_faults: u64,
    ghost image_fits: { image_room ≤ vec_capacity image },
    ghost said_fits: { said_room ≤ vec_capacity said },
}

impl SureSite {
    ghost use Rattle.hal_disk.specs.SureSite.{sure_image, sure_said, sure_room, KeepsContent};

    /// A site with this image, and room for no more than that.
    pub fn new(alloc: Global, image: Bytes) -> SureSite
        ensures image { sure_image result ≡ image }
        ensures said { sure_said result ≡ [] }
        ensures room { sure_room result ≡ (length image, 0) }
        ensures faults { (result.disk_faults ≡ 0) × (result.say_faults ≡ 0) }
    {
        let image = image.into_vec();
        SureSite {
            image_room: image.len() as u64,
            image,
            said: Vec::new(alloc),
            said_room: 0,
            disk_faults: 0,
            say_faults: 0,
        }
    }

    /// Makes room for an image and for said bytes of these sizes.
    pub fn reserve(&mut self, image: u64, said: u64) -> Result<(), Memory>
        ensures room { OnOk result ((image ≤ (sure_room self.new).0) × (said ≤ (sure_room self.new).1)) }
        ensures no_less { ((sure_room self.old).0 ≤ (sure_room self.new).0) × ((sure_room self.old).1 ≤ (sure_room self.new).1) }
        ensures content { KeepsContent self.old self.new }
    {
        if self.image_room < image {
            make_room(&mut self.image, image)?;
            self.image_room = image;
        }
        if self.said_room < said {
            make_room(&mut self.said, said)?;
            self.said_room = said;
        }
        Ok(())
    }

    pub fn image(&self) -> &[u8]
        ensures { result.now ≡ sure_image self.now }
    {
        &self.image
    }

    pub fn said(&self) -> &[u8]
        ensures { result.now ≡ sure_said self.now }
    {
        &self.said
    }
}

fn make_room(bytes: &mut Vec<u8>, size: u64) -> Result<(), Memory>
    ensures room { OnOk result (size ≤ vec_capacity bytes.new) }
    ensures items { bytes.new.items ≡ bytes.old.items }
    ensures capacity { vec_capacity bytes.old ≤ vec_capacity bytes.new }
{
    Ok(bytes.reserve((size as usize).saturating_sub(bytes.len()))?)
}

impl Site for SureSite {
    ghost use Rattle.hal_disk.specs.SureSite.{sure_image, sure_said, sure_room, FitsSaid, IsAsBefore};

    ghost image = { λ s. Some s.image.items };

    ghost said = { λ s. Some s.said.items };

    ghost moment = { λ _. 0 };

    ghost left_at = { λ _ _ _ _. ⊥ };

    ghost disk_faults = { λ s. s.disk_faults };

    ghost say_faults = { λ s. s.say_faults };

    ghost room = { λ s. Some (s.image_room, s.said_room) };

    ghost said_now = { λ s bytes text left. absurd left };

    ghost reads_now = { λ s bytes text reads words left _ _. absurd left };

    fn read_at(&mut self, at: u64, buf: &mut [u8]) -> Result<usize, Failed>
        requires { at + length buf.old ≤ 2 ^ 63 - 1 }
        ensures within { IfOk result (λ n. n ≤ length buf.new) }
        ensures bytes { IfOk result (λ n. take n buf.new ≡ take (length buf.new) (drop at (sure_image self.old))) }
        ensures sure { IsOk result }
        ensures unchanged { IsAsBefore self.old self.new }
    {
        Ok(copied_from(&self.image, at, buf))
    }

    /// It fails where it would end past the image's room, and nowhere else; the image is then as it was.
    fn write_at(&mut self, at: u64, content: &[u8]) -> Result<(), Failed>
        requires { at + length content.now ≤ 2 ^ 63 - 1 }
        ensures image { OnOk result (Some (sure_image self.new) ≡ option_map (written at content.now) (Some (sure_image self.old))) }
        ensures torn { OnErr result (TearsTold at (length content.now) (Some (sure_image self.old)) (Some (sure_image self.new))) }
        ensures unwritten { OnErr result (sure_image self.new ≡ sure_image self.old) }
        ensures said { Some (sure_said self.new) ≡ Some (sure_said self.old) }
        ensures stops { LeavesOnly {X = List ℕ} 0 0 (λ _ _ _. ⊥) (λ _ _ _. ⊥) (TornFrom (λ _ _. ⊥) at (length content.now)) }
        ensures exactly { FailsPast (sure_room self.old).0 (at + length content.now) self.old.disk_faults self.new.disk_faults result }
        ensures cause { HasCause self.old.disk_faults self.new.disk_faults result }
        ensures say_faults { self.new.say_faults ≡ self.old.say_faults }
        ensures same_room { sure_room self.new ≡ sure_room self.old }
        ensures room { HasRoom (Some (sure_room self.old)) (Some (sure_room self.new)) self.old.disk_faults self.new.disk_faults (λ room. at + length content.now ≤ room.0) }
    {
        if at + content.len() as u64 <= self.image_room
            && put(&mut self.image, at as usize, content).is_ok()
        {
            return Ok(());
        }
        self.disk_faults = self.disk_faults.saturating_add(1);
        Err(Failed)
    }

    fn sync(&mut self) -> Result<(), Failed>
        ensures sure { IsOk result }
        ensures unchanged { IsAsBefore self.old self.new }
    {
        Ok(())
    }

    /// It fails where the said bytes would pass their room, and nowhere else; nothing is then said.
    fn say(&mut self, text: &[u8]) -> Result<(), Failed>
        ensures said { OnOk result (Appends (Some (sure_said self.old)) (Some (sure_said self.new)) text.now) }
        ensures part { OnErr result (AppendsPart (Some (sure_said self.old)) (Some (sure_said self.new)) text.now) }
        ensures unsaid { OnErr result (sure_said self.new ≡ sure_said self.old) }
        ensures untold { Some (sure_said self.old) ≡ None → Some (sure_said self.new) ≡ None }
        ensures image { Some (sure_image self.new) ≡ Some (sure_image self.old) }
        ensures stops { LeavesOnly {X = List ℕ} 0 0 (λ _ _ _. ⊥) (λ _ _ _. ⊥) (SaidFrom (λ _ _. ⊥) text.now) }
        ensures exactly { FailsPast (sure_room self.old).1 (length (sure_said self.old) + length text.now) self.old.say_faults self.new.say_faults result }
        ensures cause { HasCause self.old.say_faults self.new.say_faults result }
        ensures disk_faults { self.new.disk_faults ≡ self.old.disk_faults }
        ensures same_room { sure_room self.new ≡ sure_room self.old }
        ensures room { HasRoom (Some (sure_room self.old)) (Some (sure_room self.new)) self.old.say_faults self.new.say_faults (FitsSaid (sure_said self.old) text.now) }
    {
        if (self.said.len() + text.len()) as u64 <= self.said_room
            && self.said.extend_from_slice(text).is_ok()
        {
            return Ok(());
        }
        self.say_faults = self.say_faults.saturating_add(1);
        Err(Failed)
    }
}
