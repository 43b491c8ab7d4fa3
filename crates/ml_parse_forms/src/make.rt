//! The nodes of expressions, over parts that are read.
ghost use Rattle.std.specs.Prelude.{◌≡◌, ◌+◌, ◌<◌, ◌-◌, ◌^◌, ◌∷◌, max, Some, IfOk, IfErr};
ghost use Rattle.ml_tree.specs.declared.expr.ExprKind.{ExprKind};
ghost use Rattle.ml_tree.specs.declared.pattern.ConName.{ConName};
ghost use Rattle.ml_cursor.specs.declared.error.ParseErr.{ParseErr};
ghost use Rattle.ml_grammar.specs.Trees.{node, start_of, end_of, end_behind, joined, gathered, gathered_kind};

use crate::found::{Found, FoundExpr, Head, deeper, joined, node};
use ml_cursor::ParseErr;
use ml_grammar::{Joint, ListKind};
use ml_tree::{ConName, Expr, ExprKind, Words};
use oxml_base::{Items, Span};
use sqlite_items::Boxed;
use std::alloc::Global;

/// Where the last of a list ends.
fn end_of_last(list: &[Expr]) -> u32
    ensures { result ≡ end_behind end_of 0 list.now }
{
    let mut end = 0;
    for one in list {
        end = one.span.end;
    }
    end
}

/// A list whose first stands before the others.
fn with_first(
    alloc: Global,
    first: Boxed<Expr>,
    others: Items<Expr>,
) -> Result<Items<Expr>, ParseErr>
    ensures ok { IfOk result (λ list. list ≡ first ∷ others) }
    ensures err { IfErr result (λ e. e ≡ ParseErr.NoMemory) }
{
    let mut list = Items::new(alloc);
    list.push(first.into_inner())?;
    list.append(others)?;
    Ok(list)
}

/// A function and its arguments, or several parts with `,` or `;` between them.
fn gathered_kind(
    alloc: Global,
    kind: ListKind,
    first: Boxed<Expr>,
    others: Items<Expr>,
) -> Result<ExprKind, ParseErr>
    ensures ok { IfOk result (λ k. k ≡ gathered_kind kind first others) }
    ensures err { IfErr result (λ e. e ≡ ParseErr.NoMemory) }
{
    match kind {
        ListKind::Arguments => Ok(ExprKind::Apply(first, others)),
        ListKind::Parts => Ok(ExprKind::Tuple(with_first(alloc, first, others)?)),
        ListKind::Statements | ListKind::Elements => {
            Ok(ExprKind::Seq(with_first(alloc, first, others)?))
        }
    }
}

/// The node of a first expression and those behind it.
pub fn gathered(
    alloc: Global,
    kind: ListKind,
    first: FoundExpr,
    others: Found<Items<Expr>>,
) -> Result<FoundExpr, ParseErr>
    requires first { first.depth < 2 ^ 32 - 1 }
    requires others { others.depth < 2 ^ 32 - 1 }
    ensures tree { IfOk result (λ f. f.tree ≡ gathered kind first.tree others.tree) }
    ensures depth { IfOk result (λ f. f.depth ≡ max first.depth others.depth + 1) }
    ensures err { IfErr result (λ e. e ≡ ParseErr.NoMemory) }
{
    let start = first.tree.get().span.start;
    let end = end_of_last(others.tree.as_slice());
    let depth = deeper(first.depth, others.depth);
    let gathered = gathered_kind(alloc, kind, first.tree, others.tree)?;
    Ok(node(alloc, Span { start, end }, gathered, depth)?)
}

/// Two operands with what stands between them.
pub fn infix(
    alloc: Global,
    joint: Joint,
    first: FoundExpr,
    second: FoundExpr,
) -> Result<FoundExpr, ParseErr>
    requires first { first.depth < 2 ^ 32 - 1 }
    requires second { second.depth < 2 ^ 32 - 1 }
    ensures tree { IfOk result (λ f. f.tree ≡ joined joint first.tree second.tree) }
    ensures depth { IfOk result (λ f. f.depth ≡ max first.depth second.depth + 1) }
    ensures err { IfErr result (λ e. e ≡ ParseErr.NoMemory) }
{
    let span = joined(first.tree.get().span, second.tree.get().span);
    let depth = deeper(first.depth, second.depth);
    let kind = match joint {
        Joint::Pair => ExprKind::Cons(first.tree, second.tree),
        Joint::Binary(op) => ExprKind::Binary(op, first.tree, second.tree),
    };
    Ok(node(alloc, span, kind, depth)?)
}

/// A constructor with its argument.
pub fn constructor(alloc: Global, head: Head, arg: FoundExpr) -> Result<FoundExpr, ParseErr>
    requires { arg.depth < 2 ^ 32 - 1 }
    ensures tree { IfOk result (λ f. f.tree ≡ node head.span.start (end_of arg.tree) (ExprKind.Con (ConName.Named head.span) (Some arg.tree))) }
    ensures depth { IfOk result (λ f. f.depth ≡ arg.depth + 1) }
    ensures err { IfErr result (λ e. e ≡ ParseErr.NoMemory) }
{
    let span = joined(head.span, arg.tree.get().span);
    let kind = ExprKind::Con {
        name: ConName::Named(head.span),
        arg: Some(arg.tree),
    };
    Ok(node(alloc, span, kind, arg.depth)?)
}

/// `- e`
pub fn minus(alloc: Global, head: Head, operand: FoundExpr) -> Result<FoundExpr, ParseErr>
    requires { operand.depth < 2 ^ 32 - 1 }
    ensures tree { IfOk result (λ f. f.tree ≡ node head.span.start (end_of operand.tree) (ExprKind.Minus operand.tree)) }
    ensures depth { IfOk result (λ f. f.depth ≡ operand.depth + 1) }
    ensures err { IfErr result (λ e. e ≡ ParseErr.NoMemory) }
{
    let span = joined(head.span, operand.tree.get().span);
    let kind = ExprKind::Minus(operand.tree);
    Ok(node(alloc, span, kind, operand.depth)?)
}

/// `word e`
pub fn worded(
    alloc: Global,
    words: Words,
    head: Head,
    operand: FoundExpr,
) -> Result<FoundExpr, ParseErr>
    requires { operand.depth < 2 ^ 32 - 1 }
    ensures tree { IfOk result (λ f. f.tree ≡ node head.span.start (end_of operand.tree) (ExprKind.Worded words operand.tree)) }
    ensures depth { IfOk result (λ f. f.depth ≡ operand.depth + 1) }
    ensures err { IfErr result (λ e. e ≡ ParseErr.NoMemory) }
{
    let span = joined(head.span, operand.tree.get().span);
    let kind = ExprKind::Worded(words, operand.tree);
    Ok(node(alloc, span, kind, operand.depth)?)
}

/// `exclave_ e`
pub fn exclave(alloc: Global, head: Head, body: FoundExpr) -> Result<FoundExpr, ParseErr>
    requires { body.depth < 2 ^ 32 - 1 }
    ensures tree { IfOk result (λ f. f.tree ≡ node head.span.start (end_of body.tree) (ExprKind.Exclave body.tree)) }
    ensures depth { IfOk result (λ f. f.depth ≡ body.depth + 1) }
    ensures err { IfErr result (λ e. e ≡ ParseErr.NoMemory) }
{
    let span = joined(head.span, body.tree.get().span);
    let kind = ExprKind::Exclave(body.tree);
    Ok(node(alloc, span, kind, body.depth)?)
}

/// `overwrite_ name with con`
pub fn overwrite(
    alloc: Global,
    head: Head,
    name: Span,
    con: FoundExpr,
) -> Result<FoundExpr, ParseErr>
    requires { con.depth < 2 ^ 32 - 1 }
    ensures tree { IfOk result (λ f. f.tree ≡ node head.span.start (end_of con.tree) (ExprKind.Overwrite name con.tree)) }
    ensures depth { IfOk result (λ f. f.depth ≡ con.depth + 1) }
    ensures err { IfErr result (λ e. e ≡ ParseErr.NoMemory) }
{
    let span = joined(head.span, con.tree.get().span);
    let kind = ExprKind::Overwrite {
        name,
        with_con: con.tree,
    };
    Ok(node(alloc, span, kind, con.depth)?)
}
