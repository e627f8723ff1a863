use hal_base::Bytes;

/// One call of a site in memory, as its record has it: whether it was done, and of a say how much.
#[derive(Debug, Drop)]
pub enum Call {
    Read,
    Write { at: u64, content: Bytes, done: bool },
    Sync { done: bool },
    Say { text: Bytes, said: usize },
}
