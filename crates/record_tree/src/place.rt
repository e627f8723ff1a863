// Where a new row stands.

/// Where a new row stands, by the homes of its parent and of the twin behind which it comes. A root has neither.
#[derive(Clone, Copy, Debug, PartialEq, Eq)]
pub struct Place {
    pub parent: Option<u32>,
    pub prior: Option<u32>,
}
