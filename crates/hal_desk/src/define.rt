// `define`: takes the texts of a definition in, and checks them.
ghost use Rattle.std.specs.Prelude.{◌≡◌, ◌≤◌, ◌<◌, ◌-◌, ◌^◌, ◌⊎◌, Some, Ok, Err, IfOk, IsTrue, length};
ghost use Rattle.hal_base.specs.Fault.{Rose};
ghost use Rattle.hal_schema.specs.Named.{dbd_is_named, parts_are_named};
ghost use Rattle.hal_desk.specs.Define.{RanDefine, answer_of, checked_line, definition_of, judged, place_words, refused_line};
ghost use Rattle.script_runs.specs.Script.{limit};
ghost use Rattle.hal_desk.specs.Outside.{LeavesImage, outside, site_view};

use crate::desk::{Ended, say_line};
use crate::source::take_all;
use dbd_reader::read_dbd;
use hal_base::{Bytes, Memory, Site, Source};
use hal_schema::{Place, RawSchema, Schema, SchemaFault, TextFault};
use partition_reader::read_partitions;
use std::alloc::Global;

/// What is said of a source, and with which status.
#[derive(Debug, Drop)]
pub struct Answer {
    pub line: Bytes,
    pub status: u8,
}

/// Takes its whole source in, and says whether it is a definition.
pub(crate) fn define<S: Source, T: Site>(alloc: Global, source: &mut S, site: T) -> Ended<T>
    ensures ran { RanDefine
        (outside S.Source T.Site source.old site)
        (outside S.Source T.Site source.new result.site)
        result.status }
    ensures leaves { LeavesImage (site_view T.Site site) (site_view T.Site result.site) }
    ensures later { (S.read_faults source.old ≤ S.read_faults source.new) × (T.say_faults site ≤ T.say_faults result.site) }
{
    let text = match take_all(alloc, source) {
        Ok(text) => text,
        Err(fault) => {
            return Ended {
                status: fault.status(),
                site,
            };
        }
    };
    match answer_to(alloc, text.as_slice()) {
        Ok(answer) => say_line(site, answer.line.as_slice(), answer.status),
        Err(Memory) => Ended { status: 8, site },
    }
}

/// Reads the DBD text, and behind its END line the partition file.
fn answer_to(alloc: Global, text: &[u8]) -> Result<Answer, Memory>
    requires { length text.now < 2 ^ 32 - 1 }
    ensures { IfOk result (λ answer. answer ≡ answer_of (definition_of text.now)) }
{
    let (dbd, at) = match read_dbd(alloc, text) {
        Ok(read) => read,
        Err(TextFault::Rule { rule, line }) => {
            return refused(alloc, rule, Place { part: false, line });
        }
        Err(TextFault::Memory) => return Err(Memory),
    };
    let parts = match read_partitions(alloc, &text[at..]) {
        Ok(parts) => parts,
        Err(TextFault::Rule { rule, line }) => {
            return refused(alloc, rule, Place { part: true, line });
        }
        Err(TextFault::Memory) => return Err(Memory),
    };
    judged(alloc, RawSchema { dbd, parts })
}

/// Looks at the rules of definitions.
fn judged(alloc: Global, raw: RawSchema) -> Result<Answer, Memory>
    requires types { 0 < length raw.dbd.types }
    requires named { IsTrue (dbd_is_named raw.dbd) }
    requires parts_named { IsTrue (parts_are_named raw.parts) }
    ensures { IfOk result (λ answer. answer ≡ answer_of (judged (Ok raw))) }
{
    let line = checked_line(alloc, &raw)?;
    match Schema::build(alloc, raw) {
        Ok(_) => Ok(Answer { line, status: 0 }),
        Err(SchemaFault::Rule { rule, part, line }) => refused(alloc, rule, Place { part, line }),
        Err(SchemaFault::Memory) => Err(Memory),
    }
}

fn refused(alloc: Global, rule: u8, place: Place) -> Result<Answer, Memory>
    ensures { IfOk result (λ answer. answer ≡ answer_of (Err (rule, place))) }
{
    let mut line = Bytes::from_slice(alloc, b"refused ")?;
    line.append(place_words(alloc, place)?.as_slice())?;
    line.append(b" rule ")?;
    line.append(rule.to_string(alloc)?.as_bytes())?;
    line.append(b"\n")?;
    Ok(Answer { line, status: 7 })
}

fn place_words(alloc: Global, place: Place) -> Result<Bytes, Memory>
    ensures { IfOk result (λ words. words ≡ place_words place) }
{
    let mut words = if place.part {
        Bytes::from_slice(alloc, b"partition ")?
    } else {
        Bytes::from_slice(alloc, b"line ")?
    };
    words.append(place.line.to_string(alloc)?.as_bytes())?;
    Ok(words)
}

fn checked_line(alloc: Global, raw: &RawSchema) -> Result<Bytes, Memory>
    ensures { IfOk result (λ line. line ≡ checked_line raw.now) }
{
    let mut line = Bytes::from_slice(alloc, b"checked ")?;
    line.append(raw.dbd.name.as_slice())?;
    line.append(b" partitions ")?;
    line.append(raw.parts.parts.len().to_string(alloc)?.as_bytes())?;
    line.append(b" blocks ")?;
    line.append(raw.parts.blocks.to_string(alloc)?.as_bytes())?;
    line.append(b"\n")?;
    Ok(line)
}
