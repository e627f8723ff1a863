// A database in memory and its open sessions.
use crate::rows::{changed, elements_of};
use call_changes::decide;
use call_runs::{OpenSession, is_named, open_session, session_of};
use call_text::{Call, Line, Reply, read_line, reply_line};
use dli_calls::Decision;
use get_rows::Elements;
use hal_base::{Bytes, Ilk, List, Memory};
use hal_schema::{Row, Schema};
use position_state::{Anchor, Change, Session, WalkFault};
use std::alloc::Global;

/// A list of rows under a schema, the sessions that are open, and how many blocks are free. A change takes no block.
#[derive(Drop)]
pub struct Desk {
    alloc: Global,
    schema: Schema,
    rows: List<Row>,
    sessions: List<OpenSession>,
    named: u16,
    free: u32,
}

impl Desk {
    /// An empty database without sessions, with so many free blocks.
    pub fn new(alloc: Global, schema: Schema, free: u32) -> Desk {
        Desk {
            alloc,
            schema,
            rows: List::new(alloc),
            sessions: List::new(alloc),
            named: 0,
            free,
        }
    }

    pub fn set_free(&mut self, free: u32) {
        self.free = free;
    }

    /// Closes each session; the rows stay.
    pub fn close(&mut self) {
        self.sessions = List::new(self.alloc);
    }

    /// The text of the reply to the line of a number.
    pub fn answer(&mut self, number: u32, line: &[u8]) -> Result<Bytes, WalkFault> {
        let alloc = self.alloc;
        let reply = match read_line(alloc, line)? {
            Line::Silent => return Ok(Bytes::new(alloc)),
            Line::Bad(cause) => status(*b"+B", u32::from(cause)),
            Line::Reorg { .. } => status(*b"+B", 9),
            Line::Open(request) => {
                open_session(&self.schema, &mut self.sessions, None, &request)?
            }
            Line::Call(call) => self.call(&call)?,
        };
        Ok(reply_line(alloc, None, number, &reply)?)
    }

    /// The reply to a call, whose change is made.
    fn call(&mut self, call: &Call) -> Result<Reply, WalkFault> {
        let alloc = self.alloc;
        let sessions = self.sessions.as_slice();
        let Some(open) = session_of(sessions, None, call.session) else {
            return Ok(status(*b"+S", 5));
        };
        let mut elements = elements_of(alloc, &self.schema, self.rows.as_slice(), self.free)?;
        let decision = decided(alloc, &mut elements, &open.session, call)?;
        let name = self.new_name();
        let left = self.sessions_after(call, &decision, name, &mut elements)?;
        self.rows = changed(
            alloc,
            &self.schema,
            self.rows.as_slice(),
            &decision.change,
            name,
        )?;
        self.sessions = left;
        Ok(decision.reply)
    }

    /// What a call's decision leaves of the sessions: of its own what was decided, and of each other what its change leaves.
    fn sessions_after(
        &self,
        call: &Call,
        decision: &Decision,
        name: Ilk,
        elements: &mut Elements,
    ) -> Result<List<OpenSession>, WalkFault> {
        let mut after = List::new(self.alloc);
        for one in self.sessions.as_slice() {
            let session = if is_named(None, call.session, one) {
                own_after(decision, name)?
            } else {
                kept(self.alloc, elements, &one.session, &decision.change)?
            };
            after.push(one.with(session))?;
        }
        Ok(after)
    }

    /// A name that no row had.
    fn new_name(&mut self) -> Ilk {
        self.named = self.named.saturating_add(1);
        Ilk {
            addr: u32::from(self.named) * 16,
            part: 1,
            number: 1,
        }
    }
}

/// The decision of a call; a session by an index gets what no call of another gets.
fn decided(
    alloc: Global,
    elements: &mut Elements,
    session: &Session,
    call: &Call,
) -> Result<Decision, WalkFault> {
    let schema = elements.schema(alloc)?;
    if session.index.is_some() {
        return Ok(Decision {
            reply: status(*b"+B", 0),
            change: Change::Nothing,
            session: session.copy()?,
        });
    }
    decide(alloc, &schema, session, call, elements)
}

/// An ISRT sets its session on the new row.
fn own_after(decision: &Decision, name: Ilk) -> Result<Session, Memory> {
    let mut session = decision.session.copy()?;
    if let Change::Insert { root, .. } = &decision.change {
        session.anchor = Anchor::At {
            name,
            root: root.copy()?,
            entry: None,
        };
    }
    Ok(session)
}

/// What a change leaves of another session, before it is made.
fn kept(
    alloc: Global,
    elements: &mut Elements,
    session: &Session,
    change: &Change,
) -> Result<Session, WalkFault> {
    let schema = elements.schema(alloc)?;
    if session.index.is_some() {
        return Ok(session.copy()?);
    }
    session.after_change(&schema, change, elements)
}

fn status(status: [u8; 2], number: u32) -> Reply {
    Reply {
        status,
        seg: None,
        part: None,
        number: Some(number),
    }
}
