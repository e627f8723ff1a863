// The data of a call.
ghost use Rattle.std.specs.Prelude.{◌≡◌, IfOk};
ghost use Rattle.dli_calls.specs.Changes.{content_for};

use call_gets::fitted;
use call_text::Call;
use hal_base::{Bytes, Memory};
use hal_schema::{Schema, type_of};

/// The data of a call at the length of a type; none where it doesn't fit.
pub(crate) fn content_for(schema: &Schema, code: u8, call: &Call) -> Result<Option<Bytes>, Memory>
    ensures { IfOk result (λ content. content ≡ content_for schema.now code call.now) }
{
    match type_of(schema, code) {
        None => Ok(None),
        Some(seg_type) => match &call.content {
            None => Ok(None),
            Some(value) => fitted(value, seg_type.bytes),
        },
    }
}
