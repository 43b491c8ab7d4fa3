use bumpalo::Bump;
use ml_tree::Scoped;
use std::alloc::Global;

/// The program, and where memory is taken: values in the arena, and for the time of a call from the
/// allocator.
#[derive(Clone, Copy)]
pub struct Tools<'a> {
    pub alloc: Global,
    pub bump: &'a Bump,
    pub scoped: &'a Scoped,
}
