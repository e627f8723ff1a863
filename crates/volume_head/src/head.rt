// The head of a volume as bytes.
ghost use Rattle.std.specs.Prelude.{◌≡◌, ◌↔◌, ◌≤◌, ◌==◌, take, length, IsTrue};
ghost use Rattle.std.specs.List.{list_all};
ghost use Rattle.volume_head.specs.Head.{mark, head_front, head_bytes};

use hal_base::{BLOCK, put16, put32};

/// The bytes that a volume begins with.
pub(crate) const MARK: [u8; 8] = *b"HALDBV01";

/// Whether bytes, of which there are at least eight, begin with the mark.
pub(crate) fn is_marked(front: &[u8]) -> bool
    requires { 8 ≤ length front.now }
    ensures { IsTrue result ↔ (take 8 front.now ≡ mark) }
{
    front[..8] == MARK[..]
}

/// The head's bytes before the zeros.
fn head_front(blocks: u32, text: u32, parts: u16) -> [u8; 18]
    ensures { result ≡ head_front blocks text parts }
{
    let mut front = [0; 18];
    front[..8].copy_from_slice(&MARK);
    put32(&mut front, 8, blocks);
    put32(&mut front, 12, text);
    put16(&mut front, 16, parts);
    front
}

/// The head of a volume of so many data blocks, with a definition of so many bytes, and so many partitions.
pub(crate) fn head_block(blocks: u32, text: u32, parts: u16) -> [u8; BLOCK]
    ensures { result ≡ head_bytes blocks text parts }
{
    let mut head = [0; BLOCK];
    head[..18].copy_from_slice(&head_front(blocks, text, parts));
    head
}

pub(crate) fn are_zeros(bytes: &[u8]) -> bool
    ensures { result ≡ list_all (λ byte. byte == 0) bytes.now }
{
    bytes.iter().all(|byte| *byte == 0)
}
