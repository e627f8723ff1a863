use call_text::Reply;
use position_state::{Change, Session};

/// What a call is answered, what it changes, and what it leaves of its own session. After an ISRT the session still
/// stands where it stood; whoever makes the change sets it on the new row.
#[derive(Debug, Drop)]
pub struct Decision {
    pub reply: Reply,
    pub change: Change,
    pub session: Session,
}
