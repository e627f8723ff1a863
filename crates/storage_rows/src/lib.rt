//! Tests of what stands over sites in memory: the journal, and a volume over it.
//!
//! - `journal.rt`: the journal, stopped at each moment and opened again;
//! - `volume.rt`: a volume over a journal over a site in memory;
//! - `two_parts.rt`: pages of two letters and two partitions, through a switch.
#![tactic(auto)]

ghost use Rattle.std.specs.Prelude.{◌≡◌, ◌++◌, IfOk, replicate, slice_set};

use hal_base::{BLOCK, Bytes};
use std::alloc::{AllocError, Global};

/// Where the body of a journal begins behind three blocks: the head and the gate take a block each.
pub const BODY: usize = 8192 + 3 * BLOCK;

/// The image of a site with this gate, three blocks of zeros, and what stands behind the blocks.
pub fn image_of(alloc: Global, gate: u8, behind: &[u8]) -> Result<Bytes, AllocError>
    ensures { IfOk result (λ image. image ≡ replicate 4096 0 ++ slice_set (replicate 4096 0) 0 gate ++ replicate 12288 0 ++ behind.now) }
{
    let mut block = [0; BLOCK];
    let mut image = Vec::new(alloc);
    image.extend_from_slice(&block)?;
    block[0] = gate;
    image.extend_from_slice(&block)?;
    image.extend_from_slice(&[0; 3 * BLOCK])?;
    image.extend_from_slice(behind)?;
    Ok(Bytes::from_vec(image))
}

#[cfg(test)]
mod journal;
#[cfg(test)]
mod two_parts;
#[cfg(test)]
mod volume;
