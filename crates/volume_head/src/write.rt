// The volume of a schema without records, written.
ghost use Rattle.std.specs.Prelude.{◌≡◌, ◌+◌, ◌*◌, ◌-◌, ◌^◌, ◌<◌, ◌≤◌, ◌++◌, ◌↔◌, ℕ, List, Option, drop, length, replicate, IfOk, OnOk, IsErrOf, IsTrue};
ghost use Rattle.std.specs.Option.{option_map};
ghost use Rattle.hal_base.specs.Disk.{written};
ghost use Rattle.hal_base.specs.Fault.{HasCause, HasCauseFor};
ghost use Rattle.volume_head.specs.Calls.{OnlyReads};
ghost use Rattle.volume_head.specs.Empty.{IsDurable, OnlyWrites, TellsMark, before_data, control_rows, empty_volume, first_row};
ghost use Rattle.volume_head.specs.Head.{IsMarked, canonical_text, front_of, in_blocks, most_text};
ghost use Rattle.volume_head.specs.Reading.{Told};

use crate::definition::canonical_text;
use crate::fault::WriteFault;
use crate::head::{MARK, head_block, is_marked};
use hal_base::{BLOCK, Bytes, Cursor, Failed, Memory, PartState, Site};
use hal_schema::{PartDef, Schema, schemas_are_kept};
use std::alloc::Global;
use volume_image::{ROW, row_of};

/// Writes the volume of a schema without records: each partition is idle, of number 1, and each data block free. The
/// mark is written last, when all else is on the disk. A site that begins with the mark of a volume is left as it is.
pub fn write_volume<T: Site>(alloc: Global, site: &mut T, schema: &Schema) -> Result<(), WriteFault>
    ensures tells { Told (T.image site.old) (TellsMark result) }
    ensures written { OnOk result (T.image site.new ≡ option_map (written 0 (empty_volume schema.now)) (T.image site.old)) }
    ensures durable { OnOk result (IsDurable (T.left_at site.new) (T.moment site.new) (T.image site.new)) }
    ensures kept { IsErrOf result WriteFault.Holds → T.image site.new ≡ T.image site.old }
    ensures unchanged { IsErrOf result WriteFault.Memory → T.image site.new ≡ T.image site.old }
    ensures leaves { OnlyWrites T.said T.moment T.left_at T.disk_faults T.say_faults T.room (length (empty_volume schema.now)) site.old site.new }
    ensures cause { HasCauseFor (T.disk_faults site.old) (T.disk_faults site.new) result WriteFault.DiskFault }
{
    if has_mark(site)? {
        return Err(WriteFault::Holds);
    }
    let front = before_data(alloc, schema)?;
    write_all(site, front.as_slice(), schema.blocks)?;
    Ok(())
}

/// Whether a site begins with the mark of a volume.
fn has_mark<T: Site>(site: &mut T) -> Result<bool, Failed>
    ensures told { Told (T.image site.old) (λ image. IfOk result (λ held. IsTrue held ↔ IsMarked image)) }
    ensures leaves { OnlyReads T.image T.said T.moment T.left_at T.disk_faults T.say_faults T.room site.old site.new }
    ensures cause { HasCause (T.disk_faults site.old) (T.disk_faults site.new) result }
{
    let mut front = [0; 8];
    let read = site.read_at(0, &mut front)?;
    Ok(read == 8 && is_marked(&front))
}

/// Writes all of a volume: what stands before its data blocks, and so many of these.
fn write_all<T: Site>(site: &mut T, front: &[u8], blocks: u32) -> Result<(), Failed>
    requires marked { IsMarked front.now }
    requires short { length front.now ≤ 2 ^ 62 }
    ensures written { OnOk result (T.image site.new ≡ option_map (written 0 (front.now ++ replicate (4096 * blocks) 0)) (T.image site.old)) }
    ensures durable { OnOk result (IsDurable (T.left_at site.new) (T.moment site.new) (T.image site.new)) }
    ensures leaves { OnlyWrites T.said T.moment T.left_at T.disk_faults T.say_faults T.room (length front.now + 4096 * blocks) site.old site.new }
    ensures cause { HasCause (T.disk_faults site.old) (T.disk_faults site.new) result }
{
    site.write_at(8, &front[8..])?;
    write_zeros(site, front.len() as u64, blocks)?;
    site.sync()?;
    site.write_at(0, &MARK)?;
    site.sync()
}

/// Writes so many blocks of zeros one after another.
fn write_zeros<T: Site>(site: &mut T, at: u64, blocks: u32) -> Result<(), Failed>
    requires { at ≤ 2 ^ 62 }
    ensures written { (start : ℕ) (bytes : List ℕ) (before : Option (List ℕ)) → at ≡ start + length bytes → T.image site.old ≡ option_map (written start bytes) before
        → OnOk result (T.image site.new ≡ option_map (written start (bytes ++ replicate (4096 * blocks) 0)) before) }
    ensures leaves { OnlyWrites T.said T.moment T.left_at T.disk_faults T.say_faults T.room (at + 4096 * blocks) site.old site.new }
    ensures cause { HasCause (T.disk_faults site.old) (T.disk_faults site.new) result }
{
    let zeros = [0; BLOCK];
    for number in 0..blocks {
        site.write_at(at + BLOCK as u64 * u64::from(number), &zeros)?;
    }
    Ok(())
}

/// What stands before the data blocks of a volume without records.
fn before_data(alloc: Global, schema: &Schema) -> Result<Bytes, Memory>
    ensures bytes { IfOk result (λ bytes. bytes ≡ before_data schema.now) }
    ensures short { IfOk result (λ bytes. length bytes ≤ 2 ^ 62) }
{
    schemas_are_kept();
    let text = canonical_text(alloc, schema)?;
    let head = head_block(schema.blocks, text.len() as u32, schema.parts.len() as u16);
    let mut bytes = Bytes::from_slice(alloc, &head)?;
    bytes.append(&[0; BLOCK])?;
    append_blocks(&mut bytes, text.as_slice())?;
    append_blocks(&mut bytes, control_rows(alloc, schema)?.as_slice())?;
    Ok(bytes)
}

/// Adds a text with zeros up to the end of its last block.
fn append_blocks(bytes: &mut Bytes, text: &[u8]) -> Result<(), Memory>
    ensures { OnOk result (bytes.new ≡ bytes.old ++ in_blocks text.now) }
{
    bytes.append(text)?;
    let rest = (BLOCK - text.len() % BLOCK) % BLOCK;
    bytes.append(&[0; BLOCK][..rest])
}

/// The control rows of partitions without records.
fn control_rows(alloc: Global, schema: &Schema) -> Result<Bytes, Memory>
    ensures { IfOk result (λ rows. rows ≡ control_rows schema.now) }
{
    let mut rows = Bytes::new(alloc);
    for part in schema.parts.as_slice() {
        rows.append(&first_row(part))?;
    }
    Ok(rows)
}

fn first_row(part: &PartDef) -> [u8; ROW]
    ensures { result ≡ first_row part.now }
{
    row_of(&PartState {
        part: part.number,
        number: 1,
        side: b'A',
        state: b'I',
        cursor: Cursor::Front,
    })
}
