ghost use Rattle.std.specs.Prelude.{◌≡◌, ◌+◌, ◌-◌, ◌^◌, ◌≤◌, ℕ, Option, List, length, take, drop, IfOk, OnOk, OnErr, IfSome, IsSomeAnd, Some};
ghost use Rattle.std.specs.Option.{option_map};
ghost use Rattle.std.specs.Io.KnownBytes.{Appends};
ghost use Rattle.hal_base.specs.Disk.{written, TearsTold};
ghost use Rattle.hal_base.specs.Fault.{HasCause};
ghost use Rattle.hal_base.specs.Room.{HasRoom};
ghost use Rattle.hal_base.specs.Said.{AppendsPart};
ghost use Rattle.hal_base.specs.Stops.{IsTold, LeavesOnly, TornFrom, SaidFrom};

use crate::Failed;

/// Where a volume stands and replies are said. A real file tells none of the meanings but its counts.
pub trait Site {
    /// The image as it reads, where the site tells it.
    ghost image: { Self → Option (List ℕ) };

    /// What was said, where the site tells it.
    ghost said: { Self → Option (List ℕ) };

    /// The clock. It goes on with each call, and each call has a moment within it and one after it.
    ghost moment: { Self → ℕ };

    /// The images and said bytes that a stop at a moment might have left.
    ghost left_at: { Self → ℕ → List ℕ → List ℕ → Type 0 };

    /// How often a read, a write or a sync has failed.
    ghost disk_faults: { Self → ℕ };

    /// How often a say has failed.
    ghost say_faults: { Self → ℕ };

    /// How long the image and the said bytes may grow without a fault, where the site tells it.
    ghost room: { Self → Option (ℕ × ℕ) };

    /// Puts the image's bytes from `at` on at the front of the buffer, as many as there are and fit, and
    /// answers how many. A site that tells nothing may answer fewer.
    fn read_at(&mut self, at: u64, buf: &mut [u8]) -> Result<usize, Failed>
        requires { at + length buf.old ≤ 2 ^ 63 - 1 }
        ensures within { IfOk result (λ n. n ≤ length buf.new) }
        ensures bytes { IfOk result (λ n. IfSome (image self.old) (λ bytes. take n buf.new ≡ take (length buf.new) (drop at bytes))) }
        ensures image { image self.new ≡ image self.old }
        ensures said { said self.new ≡ said self.old }
        ensures stops { LeavesOnly (moment self.old) (moment self.new) (left_at self.old) (left_at self.new) (left_at self.old (moment self.old)) }
        ensures cause { HasCause (disk_faults self.old) (disk_faults self.new) result }
        ensures say_faults { say_faults self.new ≡ say_faults self.old }
        ensures room { HasRoom (room self.old) (room self.new) (disk_faults self.old) (disk_faults self.new) (λ room. 0 ≤ room.0) };

    /// Writes from `at` on, over what is there and past the end. Until a sync a stop may leave any bytes in
    /// the range, and between the old end and the range. One that fails counts as one done in part.
    fn write_at(&mut self, at: u64, content: &[u8]) -> Result<(), Failed>
        requires { at + length content.now ≤ 2 ^ 63 - 1 }
        ensures image { OnOk result (image self.new ≡ option_map (written at content.now) (image self.old)) }
        ensures torn { OnErr result (TearsTold at (length content.now) (image self.old) (image self.new)) }
        ensures said { said self.new ≡ said self.old }
        ensures stops { LeavesOnly (moment self.old) (moment self.new) (left_at self.old) (left_at self.new) (TornFrom (left_at self.old (moment self.old)) at (length content.now)) }
        ensures cause { HasCause (disk_faults self.old) (disk_faults self.new) result }
        ensures say_faults { say_faults self.new ≡ say_faults self.old }
        ensures room { HasRoom (room self.old) (room self.new) (disk_faults self.old) (disk_faults self.new) (λ room. at + length content.now ≤ room.0) };

    /// After it a stop leaves the image that a read gives, and no other. One that fails makes nothing sure.
    fn sync(&mut self) -> Result<(), Failed>
        ensures durable { OnOk result ((bytes text : List ℕ) → left_at self.new (moment self.new) bytes text → IsTold (image self.old) bytes) }
        ensures image { image self.new ≡ image self.old }
        ensures said { said self.new ≡ said self.old }
        ensures stops { LeavesOnly (moment self.old) (moment self.new) (left_at self.old) (left_at self.new) (left_at self.old (moment self.old)) }
        ensures cause { HasCause (disk_faults self.old) (disk_faults self.new) result }
        ensures say_faults { say_faults self.new ≡ say_faults self.old }
        ensures room { HasRoom (room self.old) (room self.new) (disk_faults self.old) (disk_faults self.new) (λ room. 0 ≤ room.0) };

    /// Adds the text to what was said. One that fails adds a front of it.
    fn say(&mut self, text: &[u8]) -> Result<(), Failed>
        ensures said { OnOk result (Appends (said self.old) (said self.new) text.now) }
        ensures part { OnErr result (AppendsPart (said self.old) (said self.new) text.now) }
        ensures untold { said self.old ≡ None → said self.new ≡ None }
        ensures image { image self.new ≡ image self.old }
        ensures stops { LeavesOnly (moment self.old) (moment self.new) (left_at self.old) (left_at self.new) (SaidFrom (left_at self.old (moment self.old)) text.now) }
        ensures cause { HasCause (say_faults self.old) (say_faults self.new) result }
        ensures disk_faults { disk_faults self.new ≡ disk_faults self.old }
        ensures room { HasRoom (room self.old) (room self.new) (say_faults self.old) (say_faults self.new) (λ room. IsSomeAnd (said self.old) (λ before. length before + length text.now ≤ room.1)) };

    /// Between two calls a stop leaves just what was said.
    ghost said_now: { (site : Self) (bytes text : List ℕ) → left_at site (moment site) bytes text → IsTold (said site) text };

    /// Where a stop at this moment leaves anything, it may leave just the image that reads and what was said.
    ghost reads_now: { (site : Self) (bytes text : List ℕ) (reads words : List ℕ) → left_at site (moment site) bytes text → image site ≡ Some reads → said site ≡ Some words → left_at site (moment site) reads words };
}
