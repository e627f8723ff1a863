// Which function a call names.
ghost use Rattle.std.specs.Prelude.{◌≡◌};
ghost use Rattle.dli_calls.specs.Gets.{is_get, is_hold, is_next, is_unique, is_within_parent};
ghost use Rattle.dli_calls.specs.Refusals.{is_delete, is_insert, is_replace};

use call_text::Call;

/// GU, GN, GNP, or one of their hold forms.
pub fn is_get(call: &Call) -> bool
    ensures { result ≡ is_get call.now }
{
    let func = call.func.as_slice();
    func == b"GU".as_slice()
        || func == b"GN".as_slice()
        || func == b"GNP".as_slice()
        || func == b"GHU".as_slice()
        || func == b"GHN".as_slice()
        || func == b"GHNP".as_slice()
}

/// GU, or its hold form.
pub fn is_unique(call: &Call) -> bool
    ensures { result ≡ is_unique call.now }
{
    let func = call.func.as_slice();
    func == b"GU".as_slice() || func == b"GHU".as_slice()
}

/// GN, or its hold form.
pub fn is_next(call: &Call) -> bool
    ensures { result ≡ is_next call.now }
{
    let func = call.func.as_slice();
    func == b"GN".as_slice() || func == b"GHN".as_slice()
}

/// GHU, GHN or GHNP.
pub fn is_hold(call: &Call) -> bool
    ensures { result ≡ is_hold call.now }
{
    let func = call.func.as_slice();
    func == b"GHU".as_slice() || func == b"GHN".as_slice() || func == b"GHNP".as_slice()
}

/// GNP, or its hold form.
pub fn is_within_parent(call: &Call) -> bool
    ensures { result ≡ is_within_parent call.now }
{
    let func = call.func.as_slice();
    func == b"GNP".as_slice() || func == b"GHNP".as_slice()
}

/// ISRT.
pub fn is_insert(call: &Call) -> bool
    ensures { result ≡ is_insert call.now }
{
    call.func.as_slice() == b"ISRT".as_slice()
}

/// REPL.
pub fn is_replace(call: &Call) -> bool
    ensures { result ≡ is_replace call.now }
{
    call.func.as_slice() == b"REPL".as_slice()
}

/// DLET.
pub fn is_delete(call: &Call) -> bool
    ensures { result ≡ is_delete call.now }
{
    call.func.as_slice() == b"DLET".as_slice()
}
