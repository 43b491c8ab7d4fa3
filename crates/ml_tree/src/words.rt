//! The words that state a mode, one axis each.

/// Locality: `global_`, what may leave a region but not the area's order, `local_`.
#[derive(Clone, Copy, Debug, PartialEq, Eq)]
pub enum Loc {
    Global,
    Regional,
    Local,
}

/// Uniqueness: `unique_` and `shared_`.
#[derive(Clone, Copy, Debug, PartialEq, Eq)]
pub enum Uni {
    Unique,
    Shared,
}

/// Affinity: `many_` and `once_`.
#[derive(Clone, Copy, Debug, PartialEq, Eq)]
pub enum Aff {
    Many,
    Once,
}

/// The words that stand at one place, at most one for each axis. `None` where the axis has none.
#[derive(Clone, Copy, Debug, PartialEq, Eq)]
pub struct Words {
    pub loc: Option<Loc>,
    pub uni: Option<Uni>,
    pub aff: Option<Aff>,
}
