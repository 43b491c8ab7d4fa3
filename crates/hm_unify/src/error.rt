/// Why pairs of types were not made equal.
#[derive(Clone, Copy, Debug, PartialEq, Eq)]
pub enum UnifyErr {
    /// They have no solution, even among infinite types. The number is that of the first pair which,
    /// with those before it, leaves no finite solution.
    Clash(u32),
    /// They have only an infinite solution. The number is as for `Clash`.
    Cycle(u32),
    /// They have a finite solution, and each, so the most general one too, gives an id of a pair more
    /// than 2,000 nodes as a tree. The count is 2,001.
    TooLarge(u64),
    NoMemory,
}
