//! Finds the functions of a program.
ghost use Rattle.std.specs.Prelude.{◌≡◌, ◌++◌, ◌∷◌, [], map, None, IfOk, OnOk};
ghost use Rattle.std.specs.List.{flat_map};
ghost use Rattle.ml_meaning.specs.Names.{References};
ghost use Rattle.ml_meaning.specs.Captures.{together, bound_by_params, binders, binders_of_arm, uses, uses_of_arm};
ghost use Rattle.ml_meaning.specs.Functions.{bare_name, functions_of, functions_of_bind, functions_of_item, own_name, with_arms, with_params};
ghost use Rattle.ml_words.specs.Named.{targets};
ghost use Rattle.ml_functions.specs.Taken.{Fresh};
ghost use Rattle.ml_functions.specs.Table.{Finds, IsTable, code_of, entries, functions_of_arm, functions_of_expr, functions_of_field, functions_of_kind};

use crate::function::{Body, Function, Functions};
use crate::gather::{self, Gathered};
use crate::marks::Marks;
use crate::weights::{weighed_arms, weighed_params};
use bumpalo::Bump;
use ml_tree::{Arm, Bind, Expr, ExprKind, FieldExpr, Item, ItemKind, Param, Pat, PatKind, Scoped};
use oxml_base::NoMemory;
use std::alloc::Global;

/// The program, and where its lists are made.
#[derive(Clone, Copy)]
struct Place<'a> {
    alloc: Global,
    bump: &'a Bump,
    scoped: &'a Scoped,
}

/// The functions found so far, with a mark for each node number.
#[derive(Drop)]
struct Collector<'a> {
    marks: Marks,
    list: Vec<(u32, Function<'a>)>,
}

/// The name that a recursive binding binds.
fn bare_name(pat: &Pat) -> Option<u32>
    ensures { result ≡ bare_name pat.now }
{
    match &pat.kind {
        PatKind::Name(_, _) => Some(pat.id),
        _ => None,
    }
}

/// The name of a function's own, which only a recursive one has.
fn own_name(recursive: bool, name: Option<u32>) -> Option<u32>
    ensures { (names : References) → result ≡ own_name names recursive name }
{
    if recursive { name } else { None }
}

/// The names of a function behind parameters.
fn names_of_params(place: Place, params: &[Param], body: &Expr) -> Result<Gathered, NoMemory>
    ensures uses { IfOk result (λ found. found.uses.items ≡ uses (targets place.entry.scoped.now) body.now) }
    ensures binders { IfOk result (λ found. found.binders.items ≡ bound_by_params params.now ++ binders body.now) }
{
    let mut found = Gathered::new(place.alloc);
    gather::params(params, &mut found)?;
    gather::expr(place.scoped, body, &mut found)?;
    Ok(found)
}

/// The names of a function of arms.
fn names_of_arms(place: Place, arms: &[Arm]) -> Result<Gathered, NoMemory>
    ensures uses { IfOk result (λ found. found.uses.items ≡ together (map (uses_of_arm (targets place.entry.scoped.now)) arms.now)) }
    ensures binders { IfOk result (λ found. found.binders.items ≡ together (map binders_of_arm arms.now)) }
{
    let mut found = Gathered::new(place.alloc);
    gather::arms(place.scoped, arms, &mut found)?;
    Ok(found)
}

/// The function behind parameters that is called `own`.
#[tactic(auto, using(crate::proofs::Tables::params_code))]
fn behind_params<'a>(
    place: Place<'a>,
    marks: &mut Marks,
    own: Option<u32>,
    params: &'a [Param],
    body: &'a Expr,
) -> Result<Function<'a>, NoMemory>
    requires { Fresh marks.old }
    ensures fresh { OnOk result (Fresh marks.new) }
    ensures code { IfOk result (λ f. code_of f ≡ with_params (targets place.entry.scoped.now) own params.now body.now) }
{
    let found = names_of_params(place, params, body)?;
    let names = marks.captures(
        place.alloc,
        own,
        found.binders.as_slice(),
        found.uses.as_slice(),
    )?;
    let captures: &'a [u32] = place.bump.try_alloc_slice_copy(names.as_slice())?;
    let weight = weighed_params(params, body)?;
    Ok(Function {
        own,
        captures,
        params,
        body: Body::Single(body),
        weight,
    })
}

/// The function of arms that is called `own`.
#[tactic(auto, using(crate::proofs::Tables::arms_code))]
fn of_arms<'a>(
    place: Place<'a>,
    marks: &mut Marks,
    own: Option<u32>,
    arms: &'a [Arm],
) -> Result<Function<'a>, NoMemory>
    requires { Fresh marks.old }
    ensures fresh { OnOk result (Fresh marks.new) }
    ensures code { IfOk result (λ f. code_of f ≡ with_arms (targets place.entry.scoped.now) own arms.now) }
{
    let found = names_of_arms(place, arms)?;
    let names = marks.captures(
        place.alloc,
        own,
        found.binders.as_slice(),
        found.uses.as_slice(),
    )?;
    let captures: &'a [u32] = place.bump.try_alloc_slice_copy(names.as_slice())?;
    let weight = weighed_arms(arms)?;
    Ok(Function {
        own,
        captures,
        params: &[],
        body: Body::Cases(arms),
        weight,
    })
}

impl<'a> Collector<'a> {
    #[tactic(auto, using(crate::proofs::Tables::one_more))]
    fn with_params(
        &mut self,
        place: Place<'a>,
        node: u32,
        own: Option<u32>,
        params: &'a [Param],
        body: &'a Expr,
    ) -> Result<(), NoMemory>
        requires { Fresh self.old.marks }
        ensures fresh { OnOk result (Fresh self.new.marks) }
        ensures list { OnOk result (entries self.new.list.items ≡ entries self.old.list.items ++ (node, with_params (targets place.entry.scoped.now) own params.now body.now) ∷ []) }
    {
        let function = behind_params(place, &mut self.marks, own, params, body)?;
        self.list.push((node, function))?;
        Ok(())
    }

    #[tactic(auto, using(crate::proofs::Tables::one_more))]
    fn with_arms(
        &mut self,
        place: Place<'a>,
        node: u32,
        own: Option<u32>,
        arms: &'a [Arm],
    ) -> Result<(), NoMemory>
        requires { Fresh self.old.marks }
        ensures fresh { OnOk result (Fresh self.new.marks) }
        ensures list { OnOk result (entries self.new.list.items ≡ entries self.old.list.items ++ (node, with_arms (targets place.entry.scoped.now) own arms.now) ∷ []) }
    {
        let function = of_arms(place, &mut self.marks, own, arms)?;
        self.list.push((node, function))?;
        Ok(())
    }

    /// The functions of an expression; `own` is the name of the recursive binding whose value it is.
    #[cycle(collecting)]
    fn expr(&mut self, place: Place<'a>, e: &'a Expr, own: Option<u32>) -> Result<(), NoMemory>
        requires { Fresh self.old.marks }
        ensures fresh { OnOk result (Fresh self.new.marks) }
        ensures list { OnOk result (entries self.new.list.items ≡ entries self.old.list.items ++ functions_of_expr (targets place.entry.scoped.now) e.now own) }
    {
        self.kind(place, &e.kind, e.id, own)
    }

    #[cycle(collecting)]
    fn kind(
        &mut self,
        place: Place<'a>,
        kind: &'a ExprKind,
        node: u32,
        own: Option<u32>,
    ) -> Result<(), NoMemory>
        requires { Fresh self.old.marks }
        ensures fresh { OnOk result (Fresh self.new.marks) }
        ensures list { OnOk result (entries self.new.list.items ≡ entries self.old.list.items ++ functions_of_kind (targets place.entry.scoped.now) kind.now node own) }
    {
        match kind {
            ExprKind::Fun(params, body) => {
                self.with_params(place, node, own, params.as_slice(), body.get())?;
                self.expr(place, body.get(), None)
            }
            ExprKind::Function(arms) => {
                self.with_arms(place, node, own, arms.as_slice())?;
                self.arms(place, arms.as_slice())
            }
            ExprKind::Paren(inner) => self.expr(place, inner.get(), own),
            ExprKind::Con { name: _, arg } => match arg {
                Some(inner) => self.expr(place, inner.get(), None),
                None => Ok(()),
            },
            ExprKind::Cons(one, other)
            | ExprKind::Index(one, other)
            | ExprKind::Binary(_, one, other) => {
                self.expr(place, one.get(), None)?;
                self.expr(place, other.get(), None)
            }
            ExprKind::Tuple(parts) | ExprKind::List(parts) | ExprKind::Seq(parts) => self.exprs(
                place,
                parts.as_slice(),
            ),
            ExprKind::Fields(list) => self.fields(place, list.as_slice()),
            ExprKind::Apply(function, args) => {
                self.expr(place, function.get(), None)?;
                self.exprs(place, args.as_slice())
            }
            ExprKind::If(condition, branch, other) => {
                self.expr(place, condition.get(), None)?;
                self.expr(place, branch.get(), None)?;
                match other {
                    Some(other) => self.expr(place, other.get(), None),
                    None => Ok(()),
                }
            }
            ExprKind::Let {
                recursive,
                binds,
                body,
            } => {
                self.binds(place, binds.as_slice(), *recursive)?;
                self.expr(place, body.get(), None)
            }
            ExprKind::Match(scrutinee, arms) => {
                self.expr(place, scrutinee.get(), None)?;
                self.arms(place, arms.as_slice())
            }
            ExprKind::Field(inner, _)
            | ExprKind::Minus(inner)
            | ExprKind::Typed(inner, _)
            | ExprKind::Worded(_, inner)
            | ExprKind::Exclave(inner)
            | ExprKind::Borrow {
                name: _,
                of: _,
                body: inner,
            }
            | ExprKind::Overwrite {
                name: _,
                with_con: inner,
            } => self.expr(place, inner.get(), None),
            ExprKind::Int(_)
            | ExprKind::Char(_)
            | ExprKind::Text(_)
            | ExprKind::Name(_)
            | ExprKind::Path(_, _) => Ok(()),
        }
    }

    #[tactic(auto, using(crate::proofs::Tables::table_start, crate::proofs::Tables::table_step, crate::proofs::Tables::table_end))]
    #[cycle(collecting)]
    fn exprs(&mut self, place: Place<'a>, list: &'a [Expr]) -> Result<(), NoMemory>
        requires { Fresh self.old.marks }
        ensures fresh { OnOk result (Fresh self.new.marks) }
        ensures list { OnOk result (entries self.new.list.items ≡ entries self.old.list.items ++ flat_map (λ e. functions_of_expr (targets place.entry.scoped.now) e None) list.now) }
    {
        for one in list {
            self.expr(place, one, None)?;
        }
        Ok(())
    }

    #[tactic(auto, using(crate::proofs::Tables::table_start, crate::proofs::Tables::table_step, crate::proofs::Tables::table_end))]
    #[cycle(collecting)]
    fn fields(&mut self, place: Place<'a>, list: &'a [FieldExpr]) -> Result<(), NoMemory>
        requires { Fresh self.old.marks }
        ensures fresh { OnOk result (Fresh self.new.marks) }
        ensures list { OnOk result (entries self.new.list.items ≡ entries self.old.list.items ++ flat_map (functions_of_field (targets place.entry.scoped.now)) list.now) }
    {
        for one in list {
            self.field(place, one)?;
        }
        Ok(())
    }

    #[cycle(collecting)]
    fn field(&mut self, place: Place<'a>, field: &'a FieldExpr) -> Result<(), NoMemory>
        requires { Fresh self.old.marks }
        ensures fresh { OnOk result (Fresh self.new.marks) }
        ensures list { OnOk result (entries self.new.list.items ≡ entries self.old.list.items ++ functions_of_field (targets place.entry.scoped.now) field.now) }
    {
        self.expr(place, &field.expr, None)
    }

    #[tactic(auto, using(crate::proofs::Tables::table_start, crate::proofs::Tables::table_step, crate::proofs::Tables::table_end))]
    #[cycle(collecting)]
    fn arms(&mut self, place: Place<'a>, list: &'a [Arm]) -> Result<(), NoMemory>
        requires { Fresh self.old.marks }
        ensures fresh { OnOk result (Fresh self.new.marks) }
        ensures list { OnOk result (entries self.new.list.items ≡ entries self.old.list.items ++ flat_map (functions_of_arm (targets place.entry.scoped.now)) list.now) }
    {
        for one in list {
            self.arm(place, one)?;
        }
        Ok(())
    }

    #[cycle(collecting)]
    fn arm(&mut self, place: Place<'a>, arm: &'a Arm) -> Result<(), NoMemory>
        requires { Fresh self.old.marks }
        ensures fresh { OnOk result (Fresh self.new.marks) }
        ensures list { OnOk result (entries self.new.list.items ≡ entries self.old.list.items ++ functions_of_arm (targets place.entry.scoped.now) arm.now) }
    {
        match &arm.guard {
            Some(guard) => {
                self.expr(place, guard, None)?;
                self.expr(place, &arm.body, None)
            }
            None => self.expr(place, &arm.body, None),
        }
    }

    #[tactic(auto, using(crate::proofs::Tables::table_start, crate::proofs::Tables::table_step, crate::proofs::Tables::table_end))]
    #[cycle(collecting)]
    fn binds(&mut self, place: Place<'a>, list: &'a [Bind], recursive: bool) -> Result<(), NoMemory>
        requires { Fresh self.old.marks }
        ensures fresh { OnOk result (Fresh self.new.marks) }
        ensures list { OnOk result (entries self.new.list.items ≡ entries self.old.list.items ++ flat_map (functions_of_bind (targets place.entry.scoped.now) recursive) list.now) }
    {
        for one in list {
            self.bind(place, one, recursive)?;
        }
        Ok(())
    }

    /// The functions of a binding. One with parameters is a function at the node of its pattern.
    #[cycle(collecting)]
    fn bind(&mut self, place: Place<'a>, bind: &'a Bind, recursive: bool) -> Result<(), NoMemory>
        requires { Fresh self.old.marks }
        ensures fresh { OnOk result (Fresh self.new.marks) }
        ensures list { OnOk result (entries self.new.list.items ≡ entries self.old.list.items ++ functions_of_bind (targets place.entry.scoped.now) recursive bind.now) }
    {
        if bind.params.len() == 0 {
            return self.expr(place, &bind.body, own_name(recursive, bare_name(&bind.pat)));
        }
        let own = own_name(recursive, Some(bind.pat.id));
        self.with_params(place, bind.pat.id, own, bind.params.as_slice(), &bind.body)?;
        self.expr(place, &bind.body, None)
    }

    fn item(&mut self, place: Place<'a>, item: &'a Item) -> Result<(), NoMemory>
        requires { Fresh self.old.marks }
        ensures fresh { OnOk result (Fresh self.new.marks) }
        ensures list { OnOk result (entries self.new.list.items ≡ entries self.old.list.items ++ functions_of_item (targets place.entry.scoped.now) item.now.kind) }
    {
        match &item.kind {
            ItemKind::Types(_) => Ok(()),
            ItemKind::Let { recursive, binds } => self.binds(place, binds.as_slice(), *recursive),
        }
    }

    fn items(&mut self, place: Place<'a>, list: &'a [Item]) -> Result<(), NoMemory>
        requires { Fresh self.old.marks }
        ensures fresh { OnOk result (Fresh self.new.marks) }
        ensures list { OnOk result (entries self.new.list.items ≡ entries self.old.list.items ++ functions_of (targets place.entry.scoped.now) list.now) }
    {
        for one in list {
            self.item(place, one)?;
        }
        Ok(())
    }
}

/// For each node number the place of its function in the list, the first where there are several.
/// `NoMemory` for what is no node.
#[tactic(auto, using(crate::proofs::Places::places_start, crate::proofs::Places::places_step, crate::proofs::Places::places_end))]
fn places(
    alloc: Global,
    nodes: usize,
    list: &[(u32, Function)],
) -> Result<Vec<Option<usize>>, NoMemory>
    ensures { IfOk result (λ places. Finds places.items list.now) }
{
    let mut places = Vec::new(alloc);
    places.resize(nodes, None)?;
    let mut left = list.len();
    while left > 0 {
        left -= 1;
        let node = list[left].0 as usize;
        if node >= places.len() {
            return Err(NoMemory);
        }
        places[node] = Some(left);
    }
    Ok(places)
}

/// The functions of a program in the order of the source, each with its node.
fn listed<'a>(place: Place<'a>) -> Result<Vec<(u32, Function<'a>)>, NoMemory>
    ensures { IfOk result (λ list. entries list.items ≡ functions_of (targets place.entry.scoped.now) place.entry.scoped.now.program.items) }
{
    let program = place.scoped.program();
    let mut collector = Collector {
        marks: Marks::new(place.alloc, program.nodes as usize)?,
        list: Vec::new(place.alloc),
    };
    collector.items(place, program.items.as_slice())?;
    let Collector { marks: _, list } = collector;
    Ok(list)
}

/// The functions of a program, their lists in the arena.
#[tactic(auto, using(crate::proofs::Places::table))]
pub fn functions<'a>(
    alloc: Global,
    bump: &'a Bump,
    s: &'a Scoped,
) -> Result<Functions<'a>, NoMemory>
    ensures { IfOk result (λ fs. IsTable fs.places.now fs.list.now (functions_of (targets s.now) s.now.program.items)) }
{
    let place = Place {
        alloc,
        bump,
        scoped: s,
    };
    let list = listed(place)?;
    let places = places(alloc, s.program().nodes as usize, list.as_slice())?;
    let list: &'a [(u32, Function<'a>)] = bump.try_alloc_slice_copy(list.as_slice())?;
    let places: &'a [Option<usize>] = bump.try_alloc_slice_copy(places.as_slice())?;
    Ok(Functions { list, places })
}
