/// A byte that a program wrote, and the channel: 1 or 2.
#[derive(Clone, Copy, Debug, PartialEq, Eq)]
pub struct Put {
    pub channel: u8,
    pub byte: u8,
}

/// How a simulation ended.
#[derive(Clone, Copy, Debug, PartialEq, Eq)]
pub enum SimEnd {
    /// The program exited with this status.
    Exit(u8),
    /// It has neither exited nor faulted after so many steps.
    More,
    /// The instruction at this address is a fault.
    Fault(u64),
}
