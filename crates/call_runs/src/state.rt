// What lines change.
ghost use Rattle.std.specs.Prelude.{◌≡◌, IfOk};

use hal_base::{List, Memory, Name8, PartState};
use hal_schema::Row;
use position_state::Session;
use std::alloc::Global;

/// An open session (IMS: a PCB), by its script and its name. The one script of a run of one script has no number.
#[derive(Debug, Drop)]
pub struct OpenSession {
    pub script: Option<u16>,
    pub name: Name8,
    pub session: Session,
}

impl OpenSession {
    /// The same session of the same script and name, as it stands now.
    pub fn with(&self, session: Session) -> OpenSession
        ensures { result ≡ record self.now { session = session } }
    {
        OpenSession {
            script: self.script,
            name: self.name,
            session,
        }
    }
}

/// Copies of open sessions.
pub fn copied_sessions(alloc: Global, sessions: &[OpenSession]) -> Result<List<OpenSession>, Memory>
    ensures { IfOk result (λ copies. copies ≡ sessions.now) }
{
    let mut copies = List::new(alloc);
    for one in sessions {
        copies.push(one.with(one.session.copy()?))?;
    }
    Ok(copies)
}

/// The list of segments in hierarchic sequence, the open sessions, and how each partition stands, in the order of the
/// schema.
#[derive(Debug, Drop)]
pub struct CallState {
    pub forest: List<Row>,
    pub sessions: List<OpenSession>,
    pub parts: List<PartState>,
}
