// Standard input, which tells nothing.
ghost use Rattle.std.specs.Prelude.{◌≡◌, ◌<◌, ◌≤◌, length, None, IfOk};
ghost use Rattle.hal_base.specs.Fault.{HasCause};
ghost use Rattle.hal_disk.specs.Exact.{CountsFault};

use hal_base::{Failed, Source};
use std::io::Read;

/// Standard input. What it gives is not told; a read that fails raises the count.
#[derive(Drop)]
pub struct InputSource<R> {
    rt: R,
    faults: u64,
}

impl<R: Input + Drop> InputSource<R> {
    pub fn new(rt: R) -> InputSource<R>
        ensures { result.faults ≡ 0 }
    {
        InputSource { rt, faults: 0 }
    }
}

impl<R: Input + Drop> Source for InputSource<R> {
    ghost left = { λ _. None };

    ghost read_faults = { λ s. s.faults };

    fn next_piece(&mut self, buf: &mut [u8]) -> Result<usize, Failed>
        requires { 0 < length buf.old }
        ensures within { IfOk result (λ n. n ≤ length buf.new) }
        ensures cause { HasCause self.old.faults self.new.faults result }
        ensures counts { CountsFault self.old.faults self.new.faults result }
    {
        piece_of(&mut self.rt.reader(), buf, &mut self.faults)
    }
}

/// One read. One that fails is not the end of the input: it raises the count.
pub(crate) fn piece_of<T: Read>(
    reader: &mut T,
    buf: &mut [u8],
    faults: &mut u64,
) -> Result<usize, Failed>
    ensures within { IfOk result (λ n. n ≤ length buf.new) }
    ensures counts { CountsFault faults.old faults.new result }
    ensures cause { HasCause faults.old faults.new result }
{
    match reader.read(buf) {
        Ok(count) => Ok(count),
        Err(_) => {
            *faults = faults.saturating_add(1);
            Err(Failed)
        }
    }
}
