/// The four flags that a jump reads, by the manual's names. They are defined all four or none.
#[derive(Clone, Copy, Debug, PartialEq, Eq)]
pub struct Flags {
    /// Carry.
    pub cf: bool,
    /// Overflow.
    pub of: bool,
    /// Sign.
    pub sf: bool,
    /// Zero.
    pub zf: bool,
}

/// The registers and flags, each of which may be undefined, and the address of the next
/// instruction.
#[derive(Clone, Copy, Debug, PartialEq, Eq)]
pub struct Cpu {
    pub regs: [Option<u64>; 16],
    pub flags: Option<Flags>,
    pub at: u64,
}

/// What a step came to.
#[derive(Clone, Copy, Debug, PartialEq, Eq)]
pub enum Stepped {
    /// The instruction is done.
    Went,
    /// The kernel is asked to write the `len` bytes at the address `at` on a channel. The machine
    /// waits for `Machine::answer`.
    Asked { channel: u8, at: u64, len: u64 },
    /// The program has ended with this status.
    Exit(u8),
    /// The instruction at this address is a fault.
    Fault(u64),
}
