// Which types are on a path, one below the other.
ghost use Rattle.std.specs.Prelude.{◌≡◌};
ghost use Rattle.dli_calls.specs.Refusals.{is_below_type, is_in_subtree};

use hal_schema::{Schema, parent_code};

/// Whether a type is that above or below it.
pub fn is_in_subtree(schema: &Schema, above: u8, code: u8) -> bool
    ensures { result ≡ is_in_subtree schema.now above code }
{
    let mut at = code;
    let mut left = code;
    while left > 0 {
        if at == above {
            return true;
        }
        match parent_code(schema, at) {
            None => return false,
            Some(parent) => at = parent,
        }
        left -= 1;
    }
    false
}

/// Whether a type is below another.
pub fn is_below_type(schema: &Schema, above: u8, code: u8) -> bool
    ensures { result ≡ is_below_type schema.now above code }
{
    is_in_subtree(schema, above, code) && code != above
}
