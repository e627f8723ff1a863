// Replies as text.
ghost use Rattle.std.specs.Prelude.{◌≡◌, ◌++◌, ◌∷◌, OnOk, IfOk};
ghost use Rattle.call_text.specs.Replying.{line_number, status_text, content_text, segment_text, state_text, cursor_text, partition_text, number_text, reply_text};

use crate::values::put_value;
use crate::{PartOut, Reply, SegOut};
use hal_base::{Bytes, Cursor, Memory, put_number};
use std::alloc::Global;

fn put_line_number(
    alloc: Global,
    out: &mut Bytes,
    script: Option<u16>,
    number: u32,
) -> Result<(), Memory>
    ensures { OnOk result (out.new ≡ out.old ++ line_number script number) }
{
    if let Some(script) = script {
        put_number(alloc, out, script as u32)?;
        out.push(b'.')?;
    }
    put_number(alloc, out, number)
}

fn put_status(out: &mut Bytes, status: &[u8]) -> Result<(), Memory>
    ensures { OnOk result (out.new ≡ out.old ++ status_text status.now) }
{
    if status == b"  ".as_slice() {
        out.append(b"--")
    } else {
        out.append(status)
    }
}

fn put_segment(out: &mut Bytes, seg: &Option<SegOut>) -> Result<(), Memory>
    ensures { OnOk result (out.new ≡ out.old ++ segment_text seg.now) }
{
    let Some(seg) = seg else {
        return Ok(());
    };
    out.push(b' ')?;
    out.append(seg.seg.as_slice())?;
    out.push(b' ')?;
    put_value(out, seg.key.as_slice())?;
    if let Some(content) = &seg.content {
        out.push(b' ')?;
        put_value(out, content.as_slice())?;
    }
    Ok(())
}

fn state_text(state: u8) -> &'static [u8]
    ensures { result.now ≡ state_text state }
{
    match state {
        b'I' => b"IDLE",
        b'C' => b"ACTIVE",
        _ => b"PAUSED",
    }
}

fn put_cursor(alloc: Global, out: &mut Bytes, cursor: &Cursor) -> Result<(), Memory>
    ensures { OnOk result (out.new ≡ out.old ++ cursor_text cursor.now) }
{
    match cursor {
        Cursor::Front => out.push(b'-'),
        Cursor::At(key) => put_value(out, key.as_slice()),
        Cursor::Anchors(count) => put_number(alloc, out, *count),
    }
}

fn put_partition(alloc: Global, out: &mut Bytes, part: &Option<PartOut>) -> Result<(), Memory>
    ensures { OnOk result (out.new ≡ out.old ++ partition_text part.now) }
{
    let Some(part) = part else {
        return Ok(());
    };
    out.push(b' ')?;
    out.append(part.part.as_slice())?;
    out.push(b' ')?;
    put_number(alloc, out, part.number as u32)?;
    out.append(&[b' ', part.side, b' '])?;
    out.append(state_text(part.state))?;
    out.push(b' ')?;
    put_cursor(alloc, out, &part.cursor)
}

fn put_number_word(alloc: Global, out: &mut Bytes, number: Option<u32>) -> Result<(), Memory>
    ensures { OnOk result (out.new ≡ out.old ++ number_text number) }
{
    if let Some(number) = number {
        out.push(b' ')?;
        put_number(alloc, out, number)?;
    }
    Ok(())
}

/// The text of a reply, with its line's end. In a crew `script` is the worker's number, from 1.
pub fn reply_line(
    alloc: Global,
    script: Option<u16>,
    number: u32,
    reply: &Reply,
) -> Result<Bytes, Memory>
    ensures { IfOk result (λ text. text ≡ reply_text script number reply.now) }
{
    let mut out = Bytes::new(alloc);
    put_line_number(alloc, &mut out, script, number)?;
    out.push(b' ')?;
    put_status(&mut out, &reply.status)?;
    put_segment(&mut out, &reply.seg)?;
    put_partition(alloc, &mut out, &reply.part)?;
    put_number_word(alloc, &mut out, reply.number)?;
    out.push(b'\n')?;
    Ok(out)
}
