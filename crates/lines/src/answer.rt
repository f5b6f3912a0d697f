use crate::error::LineError;

// A print that ended: how many terms it visited, and how many bytes it wrote.
#[derive(Clone, Copy, Debug, PartialEq, Eq)]
pub struct Printed {
    pub visits: usize,
    pub count: usize,
}

// A print that was refused: why, and how many bytes it had written.
#[derive(Clone, Copy, Debug, PartialEq, Eq)]
pub struct Unfinished {
    pub kind: LineError,
    pub count: usize,
}
