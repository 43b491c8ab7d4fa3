use oxml_base::Items;

/// A value for each bit, by the bits' numbers.
#[derive(Debug, Drop)]
pub struct Table {
    pub bits: Items<bool>,
}

/// The least and the greatest of the tables that obey a list of clauses, where a table is below
/// another if each bit that it has is a bit of the other.
#[derive(Debug, Drop)]
pub struct Solved {
    pub least: Table,
    pub greatest: Table,
}
