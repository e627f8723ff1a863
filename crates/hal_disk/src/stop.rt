// What a stop may leave, replayed from a record of calls.
ghost use Rattle.std.specs.Prelude.{◌≡◌, length, replicate, reverse, if◌then◌else◌, All, IsTrue, IfOk, OnOk};
ghost use Rattle.hal_disk.specs.Record.{said_by, stopped_by, is_near, SeesMore, LeavesMore, SaysMore};

use crate::Call;
use crate::image::put;
use hal_base::{Bytes, Memory};
use std::alloc::Global;

/// An image that a stop after these calls may leave: what was written since the last sync is there where
/// `kept`, and else each of its bytes is `torn`.
pub(crate) fn replayed(
    alloc: Global,
    first: &[u8],
    calls: &[Call],
    kept: bool,
    torn: u8,
) -> Result<Bytes, Memory>
    requires { All (λ call. IsTrue (is_near call)) calls.now }
    ensures { IfOk result (λ image. image ≡ stopped_by first.now kept torn (reverse calls.now)) }
{
    let mut seen = first.to_vec(alloc)?;
    let mut left = first.to_vec(alloc)?;
    for call in calls {
        replay(alloc, call, &mut seen, &mut left, kept, torn)?;
    }
    Ok(Bytes::from_vec(left))
}

#[tactic(auto, unfolding(crate::specs::Record::seen_by, crate::specs::Record::stopped_by, crate::specs::Record::is_near))]
/// Does one call more to the image as it reads, and to the one that is left.
fn replay(
    alloc: Global,
    call: &Call,
    seen: &mut Vec<u8>,
    left: &mut Vec<u8>,
    kept: bool,
    torn: u8,
) -> Result<(), Memory>
    requires { IsTrue (is_near call.now) }
    ensures seen { OnOk result (SeesMore call.now seen.old.items seen.new.items) }
    ensures left { OnOk result (LeavesMore kept torn call.now seen.old.items left.old.items left.new.items) }
{
    match call {
        Call::Write { at, content, done } => {
            let at = *at as usize;
            if *done {
                put(seen, at, content.as_slice())?;
            }
            let bytes = stopped_content(alloc, content.as_slice(), kept, torn)?;
            put(left, at, &bytes)?;
        }
        Call::Sync { done } => {
            if *done {
                *left = seen.as_slice().to_vec(alloc)?;
            }
        }
        Call::Read | Call::Say { .. } => {}
    }
    Ok(())
}

/// What a stop leaves of written bytes: these, or as many torn ones.
fn stopped_content(alloc: Global, content: &[u8], kept: bool, torn: u8) -> Result<Vec<u8>, Memory>
    ensures { IfOk result (λ bytes. bytes.items ≡ (if kept then content.now else replicate (length content.now) torn)) }
{
    if kept {
        return Ok(content.to_vec(alloc)?);
    }
    Ok(vec![in alloc; torn; content.len()]?)
}

/// The bytes that were said by these calls.
pub(crate) fn replayed_said(alloc: Global, calls: &[Call]) -> Result<Bytes, Memory>
    ensures { IfOk result (λ text. text ≡ said_by (reverse calls.now)) }
{
    let mut all = Bytes::new(alloc);
    for call in calls {
        resay(&mut all, call)?;
    }
    Ok(all)
}

/// Says what one call more has said.
#[tactic(auto, unfolding(crate::specs::Record::said_by))]
fn resay(all: &mut Bytes, call: &Call) -> Result<(), Memory>
    ensures { OnOk result (SaysMore call.now all.old all.new) }
{
    if let Call::Say { text, said } = call {
        let count = (*said).min(text.len());
        all.append(&text.as_slice()[..count])?;
    }
    Ok(())
}
