// A list of segments that the lines of a script change, with the sessions that they open.
ghost use Rattle.std.specs.Prelude.{◌≡◌, [], IfOk, IsTrue, OnErr, OnOk};
ghost use Rattle.hal_schema.specs.Forest.{is_forest};
ghost use Rattle.position_state.specs.Lawful.{IsLawful};
ghost use Rattle.call_text.specs.Replying.{reply_text};
ghost use Rattle.call_changes.specs.Answer.{all_stand, answer_of};
ghost use Rattle.call_runs.specs.Lines.{bad_reply, line_reply};
ghost use Rattle.call_runs.specs.Sessions.{opened};
ghost use Rattle.call_runs.specs.Steps.{CallLeads};

use call_changes::{Answer, answer_call, answers_keep_a_forest, answers_lead};
use call_runs::{OpenSession, copied_sessions, open_session};
use call_text::{Call, Line, Open, Reply, read_line, reply_line};
use hal_base::{Bytes, Ilk, List, Memory};
use hal_schema::{Row, Schema};
use position_state::{ListWalk, WalkFault};
use std::alloc::Global;

/// A list of segments in memory under a schema without an index, and the open sessions, each of which stands in it.
#[derive(Drop)]
pub struct CallList<'a> {
    alloc: Global,
    schema: &'a Schema,
    walk: ListWalk<'a>,
    sessions: List<OpenSession>,
    ghost same: { walk.schema.now ≡ schema.now },
    ghost no_index: { schema.now.indexes ≡ [] },
    ghost stand: { IsTrue (all_stand schema.now walk.rows sessions) },
}

impl<'a> CallList<'a> {
    ghost use Rattle.hal_desk.specs.Lists.{Leads, asked, list_lines, start_of, state_of};
    ghost use Rattle.hal_desk.specs.Outside.{list_blocks};

    /// The rows, with no session open.
    pub fn new(alloc: Global, schema: &'a Schema, rows: List<Row>) -> CallList<'a>
        requires forest { IsTrue (is_forest schema.now rows) }
        requires no_index { schema.now.indexes ≡ [] }
        ensures state { state_of result ≡ start_of rows }
        ensures schema { result.schema.now ≡ schema.now }
    {
        CallList {
            alloc,
            schema,
            walk: ListWalk::new(alloc, schema, rows),
            sessions: List::new(alloc),
        }
    }

    /// The rows, in hierarchic sequence.
    pub fn rows(&self) -> &[Row]
        ensures { result.now ≡ (state_of self.now).forest }
    {
        self.walk.rows()
    }

    /// The rows are a forest under the schema.
    pub fn has_a_forest(&self)
        ensures { IsTrue (is_forest self.now.schema.now (state_of self.now).forest) }
    {}

    /// Does what a line says, and gives its reply's text: none for a silent line. Want of memory leaves all as it was.
    pub fn take(&mut self, script: Option<u16>, number: u32, text: &[u8]) -> Result<Bytes, Memory>
        ensures said { IfOk result (λ reply. reply ≡ (list_lines self.old.schema.now).reply (state_of self.old) (asked script number text.now)) }
        ensures leads { OnOk result (Leads self.old.schema.now (state_of self.old) (asked script number text.now) (state_of self.new)) }
        ensures unchanged { OnErr result (state_of self.new ≡ state_of self.old) }
        ensures schema { self.new.schema.now ≡ self.old.schema.now }
    {
        match read_line(self.alloc, text)? {
            Line::Silent => Ok(Bytes::new(self.alloc)),
            Line::Call(call) => self.call(script, number, &call),
            Line::Open(request) => self.open_session(script, number, &request),
            Line::Reorg { .. } => said(self.alloc, script, number, &bad(9)),
            Line::Bad(cause) => said(self.alloc, script, number, &bad(u32::from(cause))),
        }
    }

    fn call(&mut self, script: Option<u16>, number: u32, call: &Call) -> Result<Bytes, Memory>
        ensures said { IfOk result (λ reply. reply ≡ line_reply self.old.schema.now (state_of self.old) (asked script number []) (Line.Call call.now)) }
        ensures leads { OnOk result (CallLeads self.old.schema.now (state_of self.old) script list_blocks call.now (state_of self.new)) }
        ensures unchanged { OnErr result (state_of self.new ≡ state_of self.old) }
        ensures schema { self.new.schema.now ≡ self.old.schema.now }
    {
        answers_keep_a_forest();
        answers_lead();
        let name = self.walk.new_name()?;
        let answer = self.answered(script, call, name)?;
        let text = said(self.alloc, script, number, &answer.reply)?;
        self.walk.change(&answer.change, name)?;
        self.sessions = answer.sessions;
        Ok(text)
    }

    /// What a call is answered over the list as it is.
    fn answered(&mut self, script: Option<u16>, call: &Call, name: Ilk) -> Result<Answer, Memory>
        ensures answered { IfOk result (λ answer. answer ≡ answer_of self.old.schema.now self.old.walk.rows list_blocks self.old.sessions script call.now name) }
        ensures lawful { IfOk result (λ answer. IsLawful self.old.schema.now self.old.walk.rows answer.change) }
        ensures state { state_of self.new ≡ state_of self.old }
        ensures schema { self.new.schema.now ≡ self.old.schema.now }
    {
        let walk = &mut self.walk;
        match answer_call(
            self.alloc,
            self.schema,
            self.sessions.as_slice(),
            script,
            call,
            name,
            walk,
        ) {
            Ok(answer) => Ok(answer),
            Err(WalkFault::Memory) => Err(Memory),
            Err(WalkFault::Failed) => unreachable!(),
        }
    }

    fn open_session(
        &mut self,
        script: Option<u16>,
        number: u32,
        request: &Open,
    ) -> Result<Bytes, Memory>
        ensures said { IfOk result (λ reply. reply ≡ line_reply self.old.schema.now (state_of self.old) (asked script number []) (Line.Open request.now)) }
        ensures leads { OnOk result (state_of self.new ≡ record (state_of self.old) { sessions = opened self.old.schema.now self.old.sessions script request.now }) }
        ensures unchanged { OnErr result (state_of self.new ≡ state_of self.old) }
        ensures schema { self.new.schema.now ≡ self.old.schema.now }
    {
        let mut sessions = copied_sessions(self.alloc, self.sessions.as_slice())?;
        let reply = open_session(self.schema, &mut sessions, script, request)?;
        let text = said(self.alloc, script, number, &reply)?;
        self.sessions = sessions;
        Ok(text)
    }
}

/// A reply as a line.
fn said(alloc: Global, script: Option<u16>, number: u32, reply: &Reply) -> Result<Bytes, Memory>
    ensures { IfOk result (λ text. text ≡ reply_text script number reply.now) }
{
    reply_line(alloc, script, number, reply)
}

/// `+B` with its cause.
fn bad(cause: u32) -> Reply
    ensures { result ≡ bad_reply cause }
{
    Reply {
        status: *b"+B",
        seg: None,
        part: None,
        number: Some(cause),
    }
}
