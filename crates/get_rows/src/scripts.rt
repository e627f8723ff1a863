// Scripts of gets of one session, line by line.
ghost use Rattle.std.specs.Prelude.{◌≡◌};

use crate::Elements;
use call_gets::{decide_get, is_get};
use call_text::{Line, read_line, reply_line};
use hal_base::{Bytes, Memory};
use position_state::{Anchor, Session, WalkFault};
use std::alloc::Global;

/// A line of a script, and the text of its reply.
pub type Case = (&'static str, &'static str);

/// A line of a script, and how many looks it has at most.
pub type Counted = (&'static str, u64);

/// A session that sees the database in hierarchic sequence, at its front.
pub fn opened(alloc: Global, options: &[u8]) -> Result<Session, Memory> {
    Ok(Session {
        options: Bytes::from_slice(alloc, options)?,
        index: None,
        anchor: Anchor::Front,
        held: None,
        parent: None,
    })
}

/// The text of the reply to a get, and what it leaves of its session; an empty text where the line is no get of a plain
/// session.
fn answer(
    alloc: Global,
    elements: &mut Elements,
    session: Session,
    line: &str,
) -> Result<(Bytes, Session), WalkFault> {
    let schema = elements.schema(alloc)?;
    let Line::Call(call) = read_line(alloc, line.as_bytes())? else {
        return Ok((Bytes::new(alloc), session));
    };
    if !is_get(&call) || session.index.is_some() {
        return Ok((Bytes::new(alloc), session));
    }
    let decision = decide_get(alloc, &schema, &session, &call, elements)?;
    let text = reply_line(alloc, None, 1, &decision.reply)?;
    Ok((text, decision.session))
}

/// The place of the first line whose reply isn't so.
pub fn first_wrong(
    alloc: Global,
    elements: &mut Elements,
    session: Session,
    cases: &[Case],
) -> Result<Option<usize>, WalkFault> {
    let mut session = session;
    for (place, (line, reply)) in cases.iter().enumerate() {
        let (text, after) = answer(alloc, elements, session, line)?;
        if text.as_slice() != reply.as_bytes() {
            return Ok(Some(place));
        }
        session = after;
    }
    Ok(None)
}

/// The place of the first line that looks more often.
pub fn first_longer(
    alloc: Global,
    elements: &mut Elements,
    session: Session,
    cases: &[Counted],
) -> Result<Option<usize>, WalkFault> {
    let mut session = session;
    for (place, (line, most)) in cases.iter().enumerate() {
        let before = elements.looks();
        let (_, after) = answer(alloc, elements, session, line)?;
        if elements.looks().saturating_sub(before) > *most {
            return Ok(Some(place));
        }
        session = after;
    }
    Ok(None)
}
