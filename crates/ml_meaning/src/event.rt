/// One event of an evaluation. Sizes are in words of the blocks that a made program would take,
/// weights in words of the call stack.
#[derive(Clone, Copy, Debug, PartialEq, Eq)]
pub enum Event {
    /// A byte is written on channel 1 or 2.
    Put { channel: u8, byte: u8 },
    /// A block is made at this node; with no node it is the text of an operation that was called as
    /// a function.
    Made { node: Option<u32>, words: u64 },
    /// A block is overwritten at this node.
    Over { node: u32, words: u64 },
    /// A region of local blocks begins.
    Open,
    /// The region that began last, of those that have not ended, ends.
    Close,
    /// A call begins, of a function or an item of this weight.
    Enter { weight: u64 },
    /// The call that began last, of those that have not ended, ends.
    Leave { weight: u64 },
    /// A call in tail position takes the place of the one that runs.
    Tail { old: u64, new: u64 },
}

/// How an evaluation ends.
#[derive(Clone, Copy, Debug, PartialEq, Eq)]
pub enum Ending {
    /// The program ends with this status.
    Exit(u8),
    /// A call was due and no fuel was left.
    More,
}
