// Sources over a text in memory.
ghost use Rattle.std.specs.Prelude.{◌≡◌, ◌<◌, ◌≤◌, ◌↔◌, length, take, Some, min, Contains, IfOk, OnErr, IsErr};
ghost use Rattle.std.specs.Io.KnownBytes.{Consumes, IsAtEnd, Keeps};
ghost use Rattle.hal_base.specs.Fault.{HasCause};
ghost use Rattle.hal_disk.specs.Exact.{CountsFault};

use hal_base::{Bytes, Failed, List, Source};

/// A text that comes in pieces of at most so many bytes. The calls whose numbers, from 1, it is given fail.
#[derive(Drop)]
pub struct MemSource {
    text: Bytes,
    at: usize,
    piece: usize,
    failing: List<u64>,
    calls: u64,
    faults: u64,
    ghost within: { at ≤ length text },
    ghost pieces: { 1 ≤ piece },
}

impl MemSource {
    ghost use Rattle.hal_disk.specs.MemSource.{IsNew};

    pub fn new(text: Bytes, piece: usize, failing: List<u64>) -> MemSource
        requires { 1 ≤ piece }
        ensures { IsNew text piece failing result }
    {
        MemSource {
            text,
            at: 0,
            piece,
            failing,
            calls: 0,
            faults: 0,
        }
    }
}

impl Source for MemSource {
    ghost use Rattle.hal_disk.specs.MemSource.{text_left, HasCounted};

    ghost left = { λ s. Some (text_left s) };

    ghost read_faults = { λ s. s.faults };

    /// It fails where the number of this call is among those that it was given, and at no other call.
    fn next_piece(&mut self, buf: &mut [u8]) -> Result<usize, Failed>
        requires { 0 < length buf.old }
        ensures within { IfOk result (λ n. n ≤ length buf.new) }
        ensures taken { IfOk result (λ n. Consumes (Some (text_left self.old)) (Some (text_left self.new)) (take n buf.new)) }
        ensures end { result ≡ Ok 0 → IsAtEnd (Some (text_left self.new)) }
        ensures kept { OnErr result (Keeps (Some (text_left self.old)) (Some (text_left self.new))) }
        ensures cause { HasCause self.old.faults self.new.faults result }
        ensures piece { IfOk result (λ n. n ≤ self.old.piece) }
        ensures exactly { IsErr result ↔ Contains self.old.failing self.new.calls }
        ensures counts { HasCounted self.old self.new }
        ensures faults { CountsFault self.old.faults self.new.faults result }
    {
        self.calls = self.calls.saturating_add(1);
        if self.failing.as_slice().contains(&self.calls) {
            self.faults = self.faults.saturating_add(1);
            return Err(Failed);
        }
        let most = self.piece.min(buf.len());
        let count = copied(&self.text.as_slice()[self.at..], buf, most);
        self.at += count;
        Ok(count)
    }
}

/// A text that never fails.
#[derive(Drop)]
pub struct SureSource {
    text: Bytes,
    at: usize,
    ghost within: { at ≤ length text },
}

impl SureSource {
    ghost use Rattle.hal_disk.specs.MemSource.{sure_left};

    pub fn new(text: Bytes) -> SureSource
        ensures { sure_left result ≡ text }
    {
        SureSource { text, at: 0 }
    }
}

impl Source for SureSource {
    ghost use Rattle.hal_disk.specs.MemSource.{sure_left};

    ghost left = { λ s. Some (sure_left s) };

    ghost read_faults = { λ _. 0 };

    fn next_piece(&mut self, buf: &mut [u8]) -> Result<usize, Failed> {
        let most = buf.len();
        let count = copied(&self.text.as_slice()[self.at..], buf, most);
        self.at += count;
        Ok(count)
    }
}

// Copies the front of a text to the front of a buffer, and says how many bytes.
fn copied(text: &[u8], buf: &mut [u8], most: usize) -> usize
    requires { most ≤ length buf.old }
    ensures count { result ≡ min most (length text.now) }
    ensures bytes { take result buf.new ≡ take result text.now }
{
    let count = most.min(text.len());
    buf[..count].copy_from_slice(&text[..count]);
    count
}
