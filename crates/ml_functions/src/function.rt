//! The functions of a program, by the numbers of their nodes.
ghost use Rattle.std.specs.Prelude.{◌≡◌, length, slice_get};
ghost use Rattle.ml_functions.specs.Table.{arity_of, body_of, entry_at, function_at, place_of};

use ml_tree::{Arm, Expr, Param};

/// One body behind parameters, or the arms of `function`, which match the one argument.
#[derive(Clone, Copy)]
pub enum Body<'a> {
    Single(&'a Expr),
    Cases(&'a [Arm]),
}

/// A function of the program.
#[derive(Clone, Copy)]
pub struct Function<'a> {
    /// Its own name, where it is recursive.
    pub own: Option<u32>,
    pub captures: &'a [u32],
    pub params: &'a [Param],
    pub body: Body<'a>,
    /// The words of the call stack that a call weighs.
    pub weight: u64,
}

impl<'a> Function<'a> {
    /// How many arguments it takes.
    pub fn arity(self) -> usize
        ensures { result ≡ arity_of (body_of self.entry.body) (length self.entry.params.now) }
    {
        match self.body {
            Body::Single(_) => self.params.len(),
            Body::Cases(_) => 1,
        }
    }
}

/// The functions in the order of the source, and for each node the place of its function in that
/// list.
#[derive(Clone, Copy)]
pub struct Functions<'a> {
    pub list: &'a [(u32, Function<'a>)],
    pub places: &'a [Option<usize>],
}

impl<'a> Functions<'a> {
    /// The function of this node.
    pub fn at(self, node: u32) -> Option<Function<'a>>
        ensures { result ≡ function_at self.entry.places.now self.entry.list.now node }
    {
        entry_at(self.list, place_at(self.places, node))
    }
}

fn place_at(places: &[Option<usize>], node: u32) -> Option<usize>
    ensures { result ≡ place_of (slice_get places.now node) }
{
    match places.get(node as usize) {
        Some(place) => *place,
        None => None,
    }
}

fn entry_at<'a>(list: &'a [(u32, Function<'a>)], place: Option<usize>) -> Option<Function<'a>>
    ensures { result ≡ entry_at list.now place }
{
    match place {
        Some(place) => match list.get(place) {
            Some(entry) => Some(entry.1),
            None => None,
        },
        None => None,
    }
}
