// An entry of a secondary index, and its row.
ghost use Rattle.std.specs.Prelude.{◌≡◌, ◌≤◌, ◌+◌, ◌++◌, length, IfOk};
ghost use Rattle.keyed_sets.specs.Layout.{Row};
ghost use Rattle.eps_pointers.specs.Layout.{eps_bytes};
ghost use Rattle.secondary_index.specs.Entries.{entry_of};

use eps_pointers::{Eps, read_eps, write_eps};
use hal_base::{Bytes, Key, Memory};
use std::alloc::Global;

/// An entry of a secondary index: its key, as `Schema::entry_key` gives it, the pointer to the target, and the key of the
/// root of the target's record. IMS: an index pointer segment.
#[derive(Debug, Drop)]
pub struct Entry {
    pub key: Key,
    pub eps: Eps,
    pub root: Key,
}

/// The body of an entry's row.
pub(crate) fn write_body(alloc: Global, eps: Eps, root: &[u8]) -> Result<Bytes, Memory>
    ensures { IfOk result (λ body. body ≡ eps_bytes eps ++ root.now) }
{
    let mut body = Bytes::from_slice(alloc, &write_eps(eps))?;
    body.append(root)?;
    Ok(body)
}

/// The entry that a row is.
pub(crate) fn entry_of(alloc: Global, row: (Bytes, Bytes)) -> Result<Entry, Memory>
    requires { 16 ≤ length row.1 }
    ensures { IfOk result (λ entry. entry ≡ entry_of (row.0, row.1)) }
{
    let (key, body) = row;
    let mut eps = [0; 16];
    eps.copy_from_slice(&body.as_slice()[..16]);
    let root = Bytes::from_slice(alloc, &body.as_slice()[16..])?;
    Ok(Entry {
        key,
        eps: read_eps(&eps),
        root,
    })
}
