use sqlite_items::Items;

/// Where a block lies: in the area, which is never reclaimed, or on the stack of regions.
#[derive(Clone, Copy, Debug, PartialEq, Eq)]
pub enum Place {
    Area,
    Local,
}

/// The bytes of a text literal, its escapes replaced.
#[derive(Debug, Drop)]
pub struct Lit {
    pub bytes: Items<u8>,
}
