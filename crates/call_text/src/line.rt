use hal_base::{Bytes, List, Name8};

/// A value as a script line writes it: `'text'`, or `X'hex'`.
#[derive(Debug, Drop)]
pub enum Value {
    Text(Bytes),
    Hex(Bytes),
}

/// One comparison of an SSA. `op` is the operator as it is printed, and `or` tells the connector before the
/// clause, `|` where it is true and `&` where it isn't; the first clause has none.
#[derive(Debug, Drop)]
pub struct Clause {
    pub field: Name8,
    pub op: Bytes,
    pub value: Value,
    pub or: bool,
}

/// A segment search argument: a segment, its command codes, and its comparisons, none where there are no
/// parentheses. IMS: SSA.
#[derive(Debug, Drop)]
pub struct Ssa {
    pub seg: Name8,
    pub codes: Bytes,
    pub clauses: List<Clause>,
}

/// A DL/I call of a session.
#[derive(Debug, Drop)]
pub struct Call {
    pub session: Name8,
    pub func: Bytes,
    pub ssas: List<Ssa>,
    pub content: Option<Value>,
}

/// A line that opens a session. `options` are the processing options, and `index` the database name of the
/// index that it goes by. IMS: PCB with PROCOPT and PROCSEQ.
#[derive(Debug, Drop)]
pub struct Open {
    pub session: Name8,
    pub options: Bytes,
    pub index: Option<Name8>,
}

/// What a REORG line asks of its partition. A step names how many groups it copies.
#[derive(Clone, Copy, Debug, PartialEq, Eq)]
pub enum Command {
    Start,
    Step(u16),
    Pause,
    Resume,
    Finish,
    Query,
}

/// A line of a script. `Bad` has the cause that its reply names.
#[derive(Debug, Drop)]
pub enum Line {
    Silent,
    Call(Call),
    Open(Open),
    Reorg { part: Name8, command: Command },
    Bad(u8),
}
