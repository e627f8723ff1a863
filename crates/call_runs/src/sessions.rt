// Sessions by their scripts and names.
ghost use Rattle.std.specs.Prelude.{◌≡◌, ◌<◌, ◌≤◌, ◌==◌, nat_le, nat_lt, not, ◌&&◌, count_by, length, IfOk, IfSome, None, OnErr, OnOk};
ghost use Rattle.std.specs.List.{list_all, list_any};
ghost use Rattle.std.specs.Option.{option_copied, option_map_or};
ghost use Rattle.std.specs.Str.{bytes_eq};
ghost use Rattle.call_runs.specs.Sessions.{are_options, count_of, has_session, index_of, index_place, is_known, is_named, is_option, most_sessions, new_session};
ghost use Rattle.call_runs.specs.Sessions.{open_cause, open_reply, opened, same_script, session_of, session_reply};

use crate::OpenSession;
use call_text::{Open, Reply};
use hal_base::{Bytes, List, Memory, Name8};
use hal_schema::{IndexDef, Schema, schemas_are_kept};
use position_state::{Anchor, Session};

/// The most sessions that a script may have.
pub const SESSIONS: usize = 64;

/// Opens a session, which stands at the front (IMS: PCB with PROCOPT and PROCSEQ). `+S` names the cause that comes first:
/// 1 for the options, 2 for a name that is taken, 3 for too many sessions, 4 for an index that the schema lacks.
pub fn open_session(
    schema: &Schema,
    sessions: &mut List<OpenSession>,
    script: Option<u16>,
    request: &Open,
) -> Result<Reply, Memory>
    ensures reply { IfOk result (λ reply. reply ≡ open_reply schema.now sessions.old script request.now) }
    ensures opened { OnOk result (sessions.new ≡ opened schema.now sessions.old script request.now) }
    ensures unchanged { OnErr result (sessions.new ≡ sessions.old) }
{
    let cause = open_cause(schema, sessions.as_slice(), script, request);
    if cause.is_none() {
        sessions.push(new_session(schema, script, request)?)?;
    }
    Ok(session_reply(cause))
}

/// A script's open session of a name; none where a call is answered `+S 5`.
pub fn session_of(
    sessions: &[OpenSession],
    script: Option<u16>,
    name: Name8,
) -> Option<&OpenSession>
    ensures { option_copied result ≡ session_of sessions.now script name }
{
    sessions
        .iter()
        .find(|session| is_named(script, name, session))
}

/// Whether an open session is the script's session of a name.
pub fn is_named(script: Option<u16>, name: Name8, session: &OpenSession) -> bool
    ensures { result ≡ is_named script name session.now }
{
    same_script(script, session.script) && session.name == name
}

fn same_script(a: Option<u16>, b: Option<u16>) -> bool
    ensures { result ≡ same_script a b }
{
    match (a, b) {
        (None, None) => true,
        (Some(a), Some(b)) => a == b,
        _ => false,
    }
}

/// Why a session isn't opened.
fn open_cause(
    schema: &Schema,
    sessions: &[OpenSession],
    script: Option<u16>,
    request: &Open,
) -> Option<u8>
    ensures { result ≡ open_cause schema.now sessions.now script request.now }
{
    if !are_options(request.options.as_slice()) {
        return Some(1);
    }
    if has_session(sessions, script, request.session) {
        return Some(2);
    }
    if count_of(sessions, script) >= SESSIONS {
        return Some(3);
    }
    if !is_known(schema, request.index) {
        return Some(4);
    }
    None
}

/// One to four of the letters of PROCOPT.
fn are_options(options: &[u8]) -> bool
    ensures { result ≡ are_options options.now }
{
    are_few(options) && all_options(options)
}

fn are_few(options: &[u8]) -> bool
    ensures { result ≡ (not (length options.now == 0) && nat_le (length options.now) 4) }
{
    options.len() != 0 && options.len() <= 4
}

fn all_options(options: &[u8]) -> bool
    ensures { result ≡ list_all is_option options.now }
{
    options.iter().all(|letter| is_option(*letter))
}

fn is_option(letter: u8) -> bool
    ensures { result ≡ is_option letter }
{
    letter == b'G' || letter == b'I' || letter == b'R' || letter == b'D' || letter == b'A'
}

fn has_session(sessions: &[OpenSession], script: Option<u16>, name: Name8) -> bool
    ensures { result ≡ has_session sessions.now script name }
{
    sessions
        .iter()
        .any(|session| is_named(script, name, session))
}

fn count_of(sessions: &[OpenSession], script: Option<u16>) -> usize
    ensures { result ≡ count_of sessions.now script }
{
    sessions
        .iter()
        .filter(|session| same_script(script, session.script))
        .count()
}

fn is_known(schema: &Schema, index: Option<Name8>) -> bool
    ensures { result ≡ is_known schema.now index }
{
    match index {
        None => true,
        Some(name) => index_place(schema.indexes.as_slice(), name).is_some(),
    }
}

fn index_place(indexes: &[IndexDef], name: Name8) -> Option<usize>
    ensures { result ≡ index_place indexes.now name }
{
    indexes.iter().position(|index| index.name == name)
}

fn new_session(schema: &Schema, script: Option<u16>, request: &Open) -> Result<OpenSession, Memory>
    ensures { IfOk result (λ session. session ≡ new_session schema.now script request.now) }
{
    Ok(OpenSession {
        script,
        name: request.session,
        session: Session {
            options: request.options.copy()?,
            index: index_of(schema, request.index),
            anchor: Anchor::Front,
            held: None,
            parent: None,
        },
    })
}

fn index_of(schema: &Schema, index: Option<Name8>) -> Option<u8>
    ensures { result ≡ index_of schema.now index }
{
    schemas_are_kept();
    let place = index_place(schema.indexes.as_slice(), index?)?;
    Some(place as u8)
}

fn session_reply(cause: Option<u8>) -> Reply
    ensures { result ≡ session_reply cause }
{
    match cause {
        None => reply_of(*b"  ", None),
        Some(cause) => reply_of(*b"+S", Some(u32::from(cause))),
    }
}

fn reply_of(status: [u8; 2], number: Option<u32>) -> Reply
    ensures { result ≡ record { status = status; seg = None; part = None; number = number } }
{
    Reply {
        status,
        seg: None,
        part: None,
        number,
    }
}
