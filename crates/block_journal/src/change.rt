use hal_base::BLOCK;
use std::collections::BTreeMap;

/// Blocks that were staged, by number.
pub(crate) type Changes = BTreeMap<u32, [u8; BLOCK]>;
