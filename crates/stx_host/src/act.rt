use stx_base::{List, Text};

/// What `open` answers.
#[derive(Clone, Copy, Debug, PartialEq, Eq)]
pub enum Opened {
    Id(u32),
    Absent,
    Failed,
    Memory,
}

/// What `read` answers.
#[derive(Clone, Copy, Debug, PartialEq, Eq)]
pub enum Got {
    Bytes(usize),
    End,
    Failed,
}

/// What `write` answers.
#[derive(Clone, Copy, Debug, PartialEq, Eq)]
pub enum Put {
    Took(usize),
    Failed,
}

/// Where bytes are written: the result, or messages and the fault line.
#[derive(Clone, Copy, Debug, PartialEq, Eq)]
pub enum Lane {
    Out,
    Note,
}

/// A call that was answered and didn't fail.
#[derive(Clone, Copy, Debug, PartialEq, Eq)]
pub enum Act {
    /// The place of the document among those that the host tells, and the id given; `None` and 0 for
    /// an absent name.
    Open { doc: Option<usize>, id: u32 },
    /// How many bytes an id gave; 0 at its end.
    Read { id: u32, got: usize },
    Close(u32),
    /// How many bytes a lane took.
    Write { lane: Lane, len: usize },
}

/// A document and its name.
#[derive(Debug, Drop)]
pub struct Doc {
    pub name: Text,
    pub bytes: List<u8>,
}

/// The kinds of calls that a `MemHost` can be told to fail.
#[derive(Clone, Copy, Debug, PartialEq, Eq)]
pub enum Call {
    Open,
    ReadDoc,
    ReadMain,
    Write,
}

/// The nth call of a kind, counted from 1, is to fail.
#[derive(Clone, Copy, Debug, PartialEq, Eq)]
pub struct Fail {
    pub call: Call,
    pub nth: u64,
}
