// Values of a FIELD, an LCHILD and an XDFLD.
ghost use Rattle.std.specs.Prelude.{◌≡◌, map, length, IfOk};
ghost use Rattle.std.specs.List.{list_all, list_any};
ghost use Rattle.hal_base.specs.Name.{is_name, is_field_name, upper};
ghost use Rattle.dbd_reader.specs.Operands.{inside, parts, pieces};
ghost use Rattle.dbd_reader.specs.Reading.{Gives};
ghost use Rattle.dbd_reader.specs.Values.{is_system_name, field_value, sequence_of, keyed, keyed_of, keyed_in, keyed_value, child_of, child_value, index_value, fields_of, fields_value, search_value};

use crate::fault::ReadError;
use crate::operand::{inside, parts, pieces};
use crate::value::{
    Child, KeyedName, field_in, field_value, in_list, is_name, is_system_name, name_value,
};
use hal_base::{Bytes, List, Name8};
use std::alloc::Global;

fn sequence_of(kind: &[u8]) -> Result<u8, ReadError>
    ensures { Gives (λ x. x) result (sequence_of kind.now) }
{
    if kind == b"U".as_slice() {
        Ok(1)
    } else if kind == b"M".as_slice() {
        Ok(2)
    } else {
        Err(ReadError::Rule(17))
    }
}

fn keyed(name: &[u8], word: &[u8], seq: u8) -> Result<KeyedName, ReadError>
    ensures { Gives (λ x. x) result (keyed name.now word.now seq) }
{
    if word != b"SEQ".as_slice() {
        return Err(ReadError::Rule(17));
    }
    let name = field_value(name)?;
    Ok(KeyedName { name, seq })
}

#[tactic(auto, unfolding(crate::specs::Values::keyed_of))]
fn keyed_of(items: &[Bytes]) -> Result<KeyedName, ReadError>
    ensures { Gives (λ x. x) result (keyed_of items.now) }
{
    match items {
        [name, word] => keyed(name.as_slice(), word.as_slice(), 1),
        [name, word, kind] => {
            let seq = sequence_of(kind.as_slice())?;
            keyed(name.as_slice(), word.as_slice(), seq)
        }
        _ => Err(ReadError::Rule(17)),
    }
}

/// The name of a FIELD.
#[tactic(auto, unfolding(crate::specs::Values::keyed_value))]
pub fn keyed_value(alloc: Global, value: &[u8]) -> Result<KeyedName, ReadError>
    ensures { Gives (λ x. x) result (keyed_value value.now) }
{
    match inside(value) {
        Some(text) => {
            let items = pieces(alloc, text)?;
            keyed_of(items.as_slice())
        }
        None => {
            let name = field_value(value)?;
            Ok(KeyedName { name, seq: 0 })
        }
    }
}

#[tactic(auto, unfolding(crate::specs::Values::child_of))]
fn child_of(items: &[Bytes]) -> Result<Child, ReadError>
    ensures { Gives (λ x. x) result (child_of items.now) }
{
    match items {
        [seg, database] => {
            let seg = name_value(seg.as_slice())?;
            let name = name_value(database.as_slice())?;
            Ok(Child { seg, name })
        }
        _ => Err(ReadError::Rule(17)),
    }
}

/// The name of an LCHILD.
#[tactic(auto, unfolding(crate::specs::Values::child_value))]
pub fn child_value(alloc: Global, value: &[u8]) -> Result<Child, ReadError>
    ensures { Gives (λ x. x) result (child_value value.now) }
{
    let items = in_list(alloc, value)?;
    child_of(items.as_slice())
}

/// The pointer of an LCHILD, which is INDX.
#[tactic(auto, unfolding(crate::specs::Values::index_value))]
pub fn index_value(value: &[u8]) -> Result<(), ReadError>
    ensures { Gives (λ x. x) result (index_value value.now) }
{
    if value == b"INDX".as_slice() {
        Ok(())
    } else if is_name(value) {
        Err(ReadError::Rule(18))
    } else {
        Err(ReadError::Rule(17))
    }
}

fn has_system_name(items: &[Bytes]) -> bool
    ensures { result ≡ list_any (λ name. is_system_name (map upper name)) items.now }
{
    items.iter().any(|item| is_system_name(item.as_slice()))
}

/// The names of fields.
#[tactic(auto, unfolding(crate::specs::Values::fields_of))]
fn fields_of(alloc: Global, items: &[Bytes]) -> Result<List<Name8>, ReadError>
    ensures { Gives (λ x. x) result (fields_of items.now) }
{
    if has_system_name(items) {
        return Err(ReadError::Rule(18));
    }
    let mut names = List::new(alloc);
    for item in items {
        let Some(name) = field_in(item.as_slice()) else {
            return Err(ReadError::Rule(17));
        };
        names.push(name)?;
    }
    Ok(names)
}

/// A field, or a list of fields.
#[tactic(auto, unfolding(crate::specs::Values::fields_value))]
pub fn fields_value(alloc: Global, value: &[u8]) -> Result<List<Name8>, ReadError>
    ensures { Gives (λ x. x) result (fields_value value.now) }
{
    let items = parts(alloc, value)?;
    fields_of(alloc, items.as_slice())
}

/// The search fields of an index, at most five.
#[tactic(auto, unfolding(crate::specs::Values::search_value))]
pub fn search_value(alloc: Global, value: &[u8]) -> Result<List<Name8>, ReadError>
    ensures { Gives (λ x. x) result (search_value value.now) }
{
    let names = fields_value(alloc, value)?;
    if names.len() > 5 {
        return Err(ReadError::Rule(17));
    }
    Ok(names)
}
