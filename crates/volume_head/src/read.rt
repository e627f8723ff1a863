// The head and the definition of a site.
ghost use Rattle.std.specs.Prelude.{◌≡◌, ◌+◌, ◌*◌, ◌-◌, ◌^◌, ◌<◌, ◌≤◌, ℕ, length, IfOk, IfSome, IfNone, IsTrue, ◌↔◌};
ghost use Rattle.hal_schema.specs.declared.schema.Schema.{Schema};
ghost use Rattle.hal_base.specs.Fault.{HasCause, HasCauseFor};
ghost use Rattle.volume_head.specs.Head.{blocks_for, canonical_text, head_of, most_text};
ghost use Rattle.volume_head.specs.Definition.{IsVolumeOf};
ghost use Rattle.volume_head.specs.Calls.{OnlyReads};
ghost use Rattle.volume_head.specs.Reading.{Told, Reads, IsHead, IsBlockAt, AreBlocksAt, IsFrontOf, IsNoFront};

use crate::definition::schema_of;
use crate::fault::HeadFault;
use crate::head::{are_zeros, head_block, is_marked};
use hal_base::{BLOCK, Bytes, Failed, Memory, Site, get32};
use hal_schema::{Schema, schemas_are_kept};
use std::alloc::Global;

/// The most bytes that a definition may have.
const MOST_TEXT: u32 = 67_108_864;

/// Reads the head and the definition of a volume. A head that says a longer definition than any schema has, or one
/// that the image ends before, is damaged, and takes no memory.
pub fn read_definition<T: Site>(alloc: Global, site: &mut T) -> Result<Schema, HeadFault>
    ensures told { Told (T.image site.old) (Reads IsVolumeOf result) }
    ensures leaves { OnlyReads T.image T.said T.moment T.left_at T.disk_faults T.say_faults T.room site.old site.new }
    ensures cause { HasCauseFor (T.disk_faults site.old) (T.disk_faults site.new) result HeadFault.DiskFault }
{
    let head = read_head(site)?;
    let text = get32(&head, 12);
    if text > MOST_TEXT {
        return Err(HeadFault::Damaged);
    }
    let Some(bytes) = read_blocks(alloc, site, 2 * BLOCK as u64, text.div_ceil(4096))? else {
        return Err(HeadFault::Damaged);
    };
    match schema_in(alloc, &head, bytes.as_slice(), text)? {
        Some(schema) => Ok(schema),
        None => Err(HeadFault::Damaged),
    }
}

fn read_head<T: Site>(site: &mut T) -> Result<[u8; BLOCK], HeadFault>
    ensures told { Told (T.image site.old) (Reads IsHead result) }
    ensures leaves { OnlyReads T.image T.said T.moment T.left_at T.disk_faults T.say_faults T.room site.old site.new }
    ensures cause { HasCauseFor (T.disk_faults site.old) (T.disk_faults site.new) result HeadFault.DiskFault }
{
    let mut head = [0; BLOCK];
    let read = site.read_at(0, &mut head)?;
    if read < 8 {
        return Err(HeadFault::NotAVolume);
    }
    if !is_marked(&head) {
        return Err(HeadFault::NotAVolume);
    }
    if read < BLOCK {
        return Err(HeadFault::Damaged);
    }
    Ok(head)
}

/// Reads a block, or answers false where the image ends before the block does.
fn read_block<T: Site>(site: &mut T, at: u64, block: &mut [u8; BLOCK]) -> Result<bool, Failed>
    requires { at + 4096 ≤ 2 ^ 63 - 1 }
    ensures told { Told (T.image site.old) (λ image. IfOk result (λ whole. IsBlockAt at block.new whole image)) }
    ensures leaves { OnlyReads T.image T.said T.moment T.left_at T.disk_faults T.say_faults T.room site.old site.new }
    ensures cause { HasCause (T.disk_faults site.old) (T.disk_faults site.new) result }
{
    let read = site.read_at(at, block)?;
    Ok(read == BLOCK)
}

/// Reads so many blocks one after another, and takes memory for those alone that are there.
fn read_blocks<T: Site>(
    alloc: Global,
    site: &mut T,
    at: u64,
    count: u32,
) -> Result<Option<Bytes>, HeadFault>
    requires { at ≤ 2 ^ 32 }
    ensures told { Told (T.image site.old) (Reads (AreBlocksAt at count) result) }
    ensures long { IfOk result (λ found. IfSome found (λ bytes. length bytes ≡ 4096 * count)) }
    ensures leaves { OnlyReads T.image T.said T.moment T.left_at T.disk_faults T.say_faults T.room site.old site.new }
    ensures cause { HasCauseFor (T.disk_faults site.old) (T.disk_faults site.new) result HeadFault.DiskFault }
{
    let mut bytes = Bytes::new(alloc);
    let mut block = [0; BLOCK];
    for number in 0..count {
        if !read_block(site, at + BLOCK as u64 * u64::from(number), &mut block)? {
            return Ok(None);
        }
        bytes.append(&block)?;
    }
    Ok(Some(bytes))
}

/// The schema of which these are the head and the definition, a text of so many bytes with zeros behind.
fn schema_in(
    alloc: Global,
    head: &[u8; BLOCK],
    bytes: &[u8],
    text: u32,
) -> Result<Option<Schema>, Memory>
    requires short { text ≤ most_text }
    requires long { length bytes.now ≡ 4096 * blocks_for text }
    ensures found { IfOk result (λ found. IfSome found (λ schema. IsFrontOf schema head.now bytes.now)) }
    ensures none { IfOk result (λ found. IfNone found (IsNoFront text head.now bytes.now)) }
{
    let (front, rest) = bytes.split_at(text as usize);
    let Some(schema) = schema_of(alloc, front)? else {
        return Ok(None);
    };
    if are_zeros(rest) && says_same(head, &schema, text) {
        Ok(Some(schema))
    } else {
        Ok(None)
    }
}

/// Whether a head is that of a schema whose canonical text has so many bytes.
fn says_same(head: &[u8; BLOCK], schema: &Schema, text: u32) -> bool
    requires { text ≡ length (canonical_text schema.now) }
    ensures { IsTrue result ↔ (head.now ≡ head_of schema.now) }
{
    schemas_are_kept();
    *head == head_block(schema.blocks, text, schema.parts.len() as u16)
}
