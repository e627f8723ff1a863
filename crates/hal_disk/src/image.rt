// An image in memory, written over in place.
ghost use Rattle.std.specs.Prelude.{◌≡◌, ◌+◌, ◌-◌, ◌^◌, ◌≤◌, ◌<◌, ◌++◌, length, take, drop, replicate, OnOk, OnErr, IsOk};
ghost use Rattle.std.specs.Vec.{vec_capacity, vec_len};
ghost use Rattle.hal_base.specs.Disk.{written};

use std::alloc::AllocError;

/// Writes from `at` on; a short image is filled up with zeros first, which takes memory where the vector
/// has no room for it.
pub(crate) fn put(image: &mut Vec<u8>, at: usize, content: &[u8]) -> Result<(), AllocError>
    requires { at + length content.now < 2 ^ 63 }
    ensures written { OnOk result (image.new.items ≡ written at content.now image.old.items) }
    ensures err { OnErr result (image.new.items ≡ image.old.items) }
    ensures capacity { vec_capacity image.old ≤ vec_capacity image.new }
    ensures succeeds { at + length content.now ≤ vec_capacity image.old → IsOk result }
{
    fill_up(image, at + content.len())?;
    write_over(image, at, content);
    Ok(())
}

fn fill_up(image: &mut Vec<u8>, end: usize) -> Result<(), AllocError>
    ensures filled { OnOk result (image.new.items ≡ image.old.items ++ replicate (end - length image.old.items) 0) }
    ensures err { OnErr result (image.new.items ≡ image.old.items) }
    ensures capacity { vec_capacity image.old ≤ vec_capacity image.new }
    ensures succeeds { end ≤ vec_capacity image.old → IsOk result }
{
    if image.len() < end {
        image.resize(end, 0)?;
    }
    Ok(())
}

fn write_over(image: &mut Vec<u8>, at: usize, content: &[u8])
    requires { at + length content.now ≤ length image.old.items }
    ensures items { image.new.items ≡ take at image.old.items ++ content.now ++ drop (at + length content.now) image.old.items }
    ensures capacity { vec_capacity image.new ≡ vec_capacity image.old }
{
    image[at..at + content.len()].copy_from_slice(content);
}

/// Puts the bytes of an image from `at` on at the front of a buffer, as many as there are and fit.
pub(crate) fn copied_from(image: &[u8], at: u64, buf: &mut [u8]) -> usize
    ensures within { result ≤ length buf.new }
    ensures bytes { take result buf.new ≡ take (length buf.new) (drop at image.now) }
{
    let start = at.min(image.len() as u64) as usize;
    let rest = &image[start..];
    let count = rest.len().min(buf.len());
    buf[..count].copy_from_slice(&rest[..count]);
    count
}
