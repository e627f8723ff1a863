ghost use Rattle.std.specs.Prelude.{◌≡◌, IfOk};

use crate::{IndexDef, PartDef, Schema, SegType};
use hal_base::{List, Memory};
use std::alloc::Global;

impl Schema {
    /// An equal schema.
    pub fn copy(&self, alloc: Global) -> Result<Schema, Memory>
        ensures { IfOk result (λ schema. schema ≡ self.now) }
    {
        Ok(Schema {
            name: self.name,
            phdam: self.phdam,
            rm: self.rm,
            anch: self.anch,
            rbn: self.rbn,
            types: copy_types(alloc, self.types.as_slice())?,
            indexes: copy_indexes(alloc, self.indexes.as_slice())?,
            parts: copy_parts(alloc, self.parts.as_slice())?,
            blocks: self.blocks,
        })
    }
}

fn copy_types(alloc: Global, types: &[SegType]) -> Result<List<SegType>, Memory>
    ensures { IfOk result (λ list. list ≡ types.now) }
{
    let mut list = List::new(alloc);
    for t in types {
        list.push(copy_type(alloc, t)?)?;
    }
    Ok(list)
}

fn copy_type(alloc: Global, t: &SegType) -> Result<SegType, Memory>
    ensures { IfOk result (λ copy. copy ≡ t.now) }
{
    Ok(SegType {
        name: t.name,
        parent: t.parent,
        bytes: t.bytes,
        key: t.key,
        first: t.first,
        letter: t.letter,
        fields: List::from_slice(alloc, t.fields.as_slice())?,
    })
}

fn copy_indexes(alloc: Global, indexes: &[IndexDef]) -> Result<List<IndexDef>, Memory>
    ensures { IfOk result (λ list. list ≡ indexes.now) }
{
    let mut list = List::new(alloc);
    for index in indexes {
        list.push(copy_index(alloc, index)?)?;
    }
    Ok(list)
}

fn copy_index(alloc: Global, index: &IndexDef) -> Result<IndexDef, Memory>
    ensures { IfOk result (λ copy. copy ≡ index.now) }
{
    Ok(IndexDef {
        seg: index.seg,
        name: index.name,
        xdfld: index.xdfld,
        target: index.target,
        source: index.source,
        search: List::from_slice(alloc, index.search.as_slice())?,
        subseq: List::from_slice(alloc, index.subseq.as_slice())?,
    })
}

fn copy_parts(alloc: Global, parts: &[PartDef]) -> Result<List<PartDef>, Memory>
    ensures { IfOk result (λ list. list ≡ parts.now) }
{
    let mut list = List::new(alloc);
    for part in parts {
        list.push(copy_part(part)?)?;
    }
    Ok(list)
}

fn copy_part(part: &PartDef) -> Result<PartDef, Memory>
    ensures { IfOk result (λ copy. copy ≡ part.now) }
{
    Ok(PartDef {
        name: part.name,
        number: part.number,
        high: part.high.copy()?,
        anchors: part.anchors,
        fbff: part.fbff,
        fspf: part.fspf,
    })
}
