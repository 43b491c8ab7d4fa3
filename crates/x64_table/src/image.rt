use oxml_base::Items;

/// What the compiler makes of a program: its instructions, and its literals followed by its
/// top-level slots.
#[derive(Debug, Drop)]
pub struct Code {
    pub bytes: Items<u8>,
    pub literals: Items<u8>,
}

/// A run of memory, from the address `at` on.
#[derive(Debug, Drop)]
pub struct Segment {
    pub at: u64,
    /// The bytes that it takes in memory, zeros behind `bytes` included.
    pub size: u64,
    /// 4 to read, 2 to write, 1 to execute, added up.
    pub flags: u8,
    /// What the file gives of it.
    pub bytes: Items<u8>,
}

/// A program as the kernel loads it.
#[derive(Debug, Drop)]
pub struct Image {
    /// The address of the first instruction.
    pub entry: u64,
    pub segments: Items<Segment>,
}

/// The words, of eight bytes, of each part of the memory that a program takes blocks and frames from.
#[derive(Clone, Copy, Debug, PartialEq, Eq)]
pub struct Sizes {
    pub area: u32,
    pub local: u32,
    pub stack: u32,
}
