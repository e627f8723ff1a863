// What a change makes of a list of rows, and the rows as elements.
use get_rows::Elements;
use hal_base::{Bytes, Ilk, List, Memory};
use hal_schema::{Row, Schema, key_in, level_of, root_cmp, row_key, type_of};
use position_state::{Anchor, Change, Spot};
use std::alloc::Global;
use std::cmp::Ordering;

/// The list after a change, where a new row gets this name.
pub fn changed(
    alloc: Global,
    schema: &Schema,
    rows: &[Row],
    change: &Change,
    name: Ilk,
) -> Result<List<Row>, Memory> {
    match change {
        Change::Insert {
            parent,
            code,
            content,
            ..
        } => {
            let new = Row {
                name,
                code: *code,
                parent: *parent,
                content: content.copy()?,
            };
            with_row(alloc, schema, rows, new)
        }
        Change::Replace { name, content, .. } => with_content(alloc, rows, *name, content),
        Change::Delete { name, .. } => without_span(alloc, schema, rows, *name),
        Change::Nothing | Change::Heal { .. } => copied(alloc, rows),
    }
}

fn copied(alloc: Global, rows: &[Row]) -> Result<List<Row>, Memory> {
    let mut copy = List::new(alloc);
    for row in rows {
        copy.push(row_with(row, &row.content)?)?;
    }
    Ok(copy)
}

fn row_with(row: &Row, content: &Bytes) -> Result<Row, Memory> {
    Ok(Row {
        name: row.name,
        code: row.code,
        parent: row.parent,
        content: content.copy()?,
    })
}

fn with_content(
    alloc: Global,
    rows: &[Row],
    name: Ilk,
    content: &Bytes,
) -> Result<List<Row>, Memory> {
    let mut replaced = List::new(alloc);
    for row in rows {
        if row.name == name {
            replaced.push(row_with(row, content)?)?;
        } else {
            replaced.push(row_with(row, &row.content)?)?;
        }
    }
    Ok(replaced)
}

/// The list without the row of a name and the rows below it.
fn without_span(
    alloc: Global,
    schema: &Schema,
    rows: &[Row],
    name: Ilk,
) -> Result<List<Row>, Memory> {
    let mut left = List::new(alloc);
    let mut cut = u8::MAX;
    for row in rows {
        let level = level_of(schema, row.code);
        if row.name == name {
            cut = level;
        } else if level <= cut {
            cut = u8::MAX;
            left.push(row_with(row, &row.content)?)?;
        }
    }
    Ok(left)
}

fn with_row(alloc: Global, schema: &Schema, rows: &[Row], new: Row) -> Result<List<Row>, Memory> {
    let mut inserted = copied(alloc, rows)?;
    let place = place_of(schema, rows, &new);
    inserted.insert(place.min(inserted.len()), new)?;
    Ok(inserted)
}

/// Behind the last row that must stand before a new one, and what is below that row.
fn place_of(schema: &Schema, rows: &[Row], new: &Row) -> usize {
    let mut place = 0;
    for (other, row) in rows.iter().enumerate() {
        if stands_before(schema, row, new) {
            place = other + 1;
        }
    }
    let level = level_of(schema, new.code);
    for (other, row) in rows.iter().enumerate() {
        if other >= place && level_of(schema, row.code) <= level {
            return other;
        }
    }
    rows.len()
}

/// The parent of a new row, that parent's children of lower types, and the twins of lower key, under LAST those of equal
/// key too.
fn stands_before(schema: &Schema, row: &Row, new: &Row) -> bool {
    if new.parent == Some(row.name) {
        return true;
    }
    if row.parent != new.parent {
        return false;
    }
    if row.code != new.code {
        return row.code < new.code;
    }
    match twin_cmp(schema, row, new) {
        Ordering::Less => true,
        Ordering::Equal => !is_first(schema, new.code),
        Ordering::Greater => false,
    }
}

fn is_first(schema: &Schema, code: u8) -> bool {
    match type_of(schema, code) {
        None => false,
        Some(seg_type) => seg_type.first,
    }
}

/// How two twins compare: roots in the order of partitions, others by their sequence fields.
fn twin_cmp(schema: &Schema, row: &Row, new: &Row) -> Ordering {
    let key = row_key(schema, row);
    let other = row_key(schema, new);
    if row.code == 1 {
        root_cmp(schema, key, other)
    } else {
        key.cmp(other)
    }
}

/// The rows as elements, with so many free blocks.
pub fn elements_of(
    alloc: Global,
    schema: &Schema,
    rows: &[Row],
    free: u32,
) -> Result<Elements, Memory> {
    let mut elements = Elements::new(alloc, schema.copy(alloc)?);
    elements.set_free(free);
    let mut path: Vec<&Row> = Vec::new(alloc);
    for row in rows {
        let level = level_of(schema, row.code);
        path.retain(|above| level_of(schema, above.code) < level);
        path.push(row)?;
        elements.push(element(alloc, schema, &path, row)?)?;
    }
    Ok(elements)
}

fn element(alloc: Global, schema: &Schema, path: &[&Row], row: &Row) -> Result<Spot, Memory> {
    let mut key = Bytes::new(alloc);
    for above in path {
        key.append(row_key(schema, above))?;
    }
    let mut root = Bytes::new(alloc);
    if let Some(first) = path.first() {
        root.append(key_in(schema, first.code, first.content.as_slice()))?;
    }
    Ok(Spot {
        at: Anchor::At {
            name: row.name,
            root,
            entry: None,
        },
        code: row.code,
        level: level_of(schema, row.code),
        key,
        content: row.content.copy()?,
    })
}
