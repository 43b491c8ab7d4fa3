//! What is left to do behind the expression that is being evaluated.
ghost use Rattle.std.specs.Prelude.{◌≡◌, length, slice_get, []};
ghost use Rattle.std.specs.Option.{option_map};
ghost use Rattle.ml_meaning.specs.declared.event.Event.{Event};
ghost use Rattle.ml_meaning.specs.Tellings.{Setting};
ghost use Rattle.ml_values.specs.declared.told.Mode.TheVariants.{Inner};
ghost use Rattle.ml_steps.specs.Left.{bind_value, followed, frame_run, inner_run, next_run, part_run, parts_runs, step_run, then_run};

use ml_meaning::Ending;
use ml_tree::{Arm, BinOp, Bind, Expr, FieldExpr, Op};
use ml_values::{Env, Mode, Word, Words};

/// Where an expression stands: whether in tail position, with which names, and with how much fuel
/// for its calls.
#[derive(Clone, Copy)]
pub struct Here<'a> {
    pub mode: Mode,
    pub env: Env<'a>,
    pub fuel: u64,
}

impl<'a> Here<'a> {
    /// The same place, but not in tail position.
    pub fn inner(self) -> Here<'a>
        ensures mode { result.mode ≡ Inner }
        ensures env { result.env ≡ self.entry.env }
        ensures fuel { result.fuel ≡ self.entry.fuel }
    {
        Here {
            mode: Mode::Inner,
            env: self.env,
            fuel: self.fuel,
        }
    }

    /// The same place with other names.
    pub fn with(self, env: Env<'a>) -> Here<'a>
        ensures mode { result.mode ≡ self.entry.mode }
        ensures env { result.env ≡ env.entry }
        ensures fuel { result.fuel ≡ self.entry.fuel }
    {
        Here {
            mode: self.mode,
            env,
            fuel: self.fuel,
        }
    }
}

/// Parts that are evaluated right to left.
#[derive(Clone, Copy)]
pub enum Parts<'a> {
    One(&'a Expr),
    Two(&'a Expr, &'a Expr),
    Many(&'a [Expr]),
    Fields(&'a [FieldExpr]),
    /// What bindings bind; one with parameters is a function.
    Binds(&'a [Bind]),
}

/// What is evaluated for a part.
#[derive(Clone, Copy)]
pub enum Part<'a> {
    Evaluate(&'a Expr),
    /// The function of this node is made.
    Close(u32),
}

fn bound_part<'a>(bind: &'a Bind) -> Part<'a>
    ensures { (s : Setting Event) → part_run s result ≡ bind_value s bind.entry.now }
{
    if bind.params.len() == 0 {
        return Part::Evaluate(&bind.body);
    }
    Part::Close(bind.pat.id)
}

impl<'a> Parts<'a> {
    /// How many there are.
    pub fn len(self) -> usize
        ensures { (s : Setting Event) → result ≡ length (parts_runs s self.entry) }
    {
        match self {
            Parts::One(_) => 1,
            Parts::Two(_, _) => 2,
            Parts::Many(list) => list.len(),
            Parts::Fields(list) => list.len(),
            Parts::Binds(list) => list.len(),
        }
    }

    /// The part at this place; `None` where there are not as many.
    pub fn get(self, at: usize) -> Option<Part<'a>>
        ensures { (s : Setting Event) → option_map (part_run s) result ≡ slice_get (parts_runs s self.entry) at }
    {
        match self {
            Parts::One(only) => if at == 0 {
                Some(Part::Evaluate(only))
            } else {
                None
            },
            Parts::Two(one, other) => match at {
                0 => Some(Part::Evaluate(one)),
                1 => Some(Part::Evaluate(other)),
                _ => None,
            },
            Parts::Many(list) => match list.get(at) {
                Some(e) => Some(Part::Evaluate(e)),
                None => None,
            },
            Parts::Fields(list) => match list.get(at) {
                Some(field) => Some(Part::Evaluate(&field.expr)),
                None => None,
            },
            Parts::Binds(list) => match list.get(at) {
                Some(bind) => Some(bound_part(bind)),
                None => None,
            },
        }
    }
}

/// What is done with the values of all parts.
#[derive(Clone, Copy)]
pub enum Finish<'a> {
    /// A block of this place is made.
    Build(u32, u32),
    /// A record is made, its parts in the order of the declaration.
    Record(u32, &'a [FieldExpr]),
    Operate(u32, Op),
    /// The function is evaluated, and applied to them.
    Apply(u32, &'a Expr),
    /// They are bound in the body.
    Bind(&'a [Bind], &'a Expr),
    /// A block is overwritten by one of this place.
    Overwrite(u32, u32),
}

/// What is done with the value that is being evaluated.
#[derive(Clone, Copy)]
pub enum Then<'a> {
    /// It is a part; `left` parts before it are still to be evaluated, and the values behind it are
    /// there.
    Parts {
        parts: Parts<'a>,
        left: usize,
        done: Words<'a>,
        last: Finish<'a>,
    },
    /// It is an element of a list literal, before this tail; `left` elements stand before it.
    Chain {
        node: u32,
        items: &'a [Expr],
        left: usize,
        tail: Word<'a>,
    },
    /// It is let go, and the expressions from this one on follow.
    Sequence(&'a [Expr], usize),
    /// It is the right operand, and the left one follows.
    Left(u32, BinOp, &'a Expr),
    /// It is the left operand of this right one.
    Operator(u32, BinOp, Word<'a>),
    /// It is a function, applied to these arguments.
    Callee(u32, Words<'a>),
    /// It is what a call gave, applied to the arguments that are left.
    Rest(u32, Words<'a>),
    Project(Option<u32>),
    Negate,
    Branch(&'a Expr, Option<&'a Expr>),
    BoolAnd(&'a Expr),
    BoolOr(&'a Expr),
    Choose(&'a [Arm]),
    /// It is the guard of an arm: with these names its body follows, and else the arms from `next`
    /// on are tried for the scrutinee.
    Guard {
        body: &'a Expr,
        env: Env<'a>,
        arms: &'a [Arm],
        next: usize,
        scrutinee: Word<'a>,
    },
    /// It is the value of the whole.
    Finish,
    /// The region was closed before it; the call of this weight is left.
    Exclave(u64),
    /// The region of a borrow is closed, and it is the value of the whole.
    Borrow,
}

#[derive(Clone, Copy)]
pub struct Frame<'a> {
    pub then: Then<'a>,
    pub here: Here<'a>,
}

/// What is done next.
#[derive(Clone, Copy)]
pub enum Next<'a> {
    Visit(&'a Expr, Here<'a>),
    /// The function of this node is made.
    Close(u32, Here<'a>),
    /// The arms are tried for this value.
    Choose(&'a [Arm], Word<'a>, Here<'a>),
    /// This is the value of what was evaluated.
    Give(Word<'a>),
    Stop(Ending),
}

/// What comes of a step: what is done next, and what is left to do behind that.
#[derive(Clone, Copy)]
pub struct Step<'a> {
    pub next: Next<'a>,
    pub frame: Option<Frame<'a>>,
}

/// A step with nothing more behind it.
pub fn go_on<'a>(next: Next<'a>) -> Step<'a>
    ensures { (s : Setting Event) → step_run s result ≡ next_run s next.entry }
{
    Step { next, frame: None }
}

/// A step with this to do behind it.
pub fn go_on_then<'a>(next: Next<'a>, then: Then<'a>, here: Here<'a>) -> Step<'a>
    ensures { (s : Setting Event) → step_run s result ≡ followed (next_run s next.entry) (then_run s then.entry here.entry) }
{
    Step {
        next,
        frame: Some(Frame { then, here }),
    }
}

/// A step that evaluates an expression, and then does more with its value.
pub fn evaluate_then<'a>(e: &'a Expr, then: Then<'a>, here: Here<'a>) -> Step<'a>
    ensures { (s : Setting Event) → step_run s result ≡ followed (inner_run s e.entry.now here.entry) (then_run s then.entry here.entry) }
{
    go_on_then(Next::Visit(e, here.inner()), then, here)
}
