//! What a construct sees of its operand.
ghost use Rattle.std.specs.Prelude.{◌≡◌};
ghost use Rattle.ml_scope.specs.Shapes.{fills, miscounts, is_name, is_fun};

/// What a construct sees of its operand. Parentheses hide no tuple, `_` and function, but a name.
#[derive(Clone, Copy, Debug, PartialEq, Eq)]
pub enum Shape {
    /// A tuple of so many parts.
    Tuple(usize),
    /// The pattern `_`.
    Any,
    /// `fun` or `function`.
    Function,
    /// A name that is bound.
    Name,
    Other,
}

impl Shape {
    /// The shape of this operand in parentheses.
    pub fn inside(self) -> Shape
        ensures { result ≡ Rattle.ml_scope.specs.Shapes.inside self }
    {
        match self {
            Shape::Name => Shape::Other,
            _ => self,
        }
    }

    pub fn is_name(self) -> bool
        ensures { result ≡ is_name self }
    {
        matches!(self, Shape::Name)
    }

    pub fn is_function(self) -> bool
        ensures { result ≡ is_fun self }
    {
        matches!(self, Shape::Function)
    }

    /// Whether an operand gives a constructor of `parts` fields, two or more, all of them.
    fn fills(self, parts: u32) -> bool
        ensures { result ≡ fills parts self }
    {
        match self {
            Shape::Tuple(count) => count == parts as usize,
            Shape::Any => true,
            _ => false,
        }
    }
}

/// Whether a constructor of `parts` fields has the wrong operand. One field takes any operand.
pub fn miscounts(parts: u32, given: Option<Shape>) -> bool
    ensures { result ≡ miscounts parts given }
{
    match given {
        None => parts != 0,
        Some(shape) => parts != 1 && (parts == 0 || !shape.fills(parts)),
    }
}
