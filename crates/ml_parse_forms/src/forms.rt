//! The nodes of the open forms, over parts that are read.
ghost use Rattle.std.specs.Prelude.{◌≡◌, ◌+◌, ◌<◌, ◌-◌, ◌^◌, max, IfOk, IfErr};
ghost use Rattle.ml_tree.specs.declared.expr.ExprKind.{ExprKind};
ghost use Rattle.ml_cursor.specs.declared.error.ParseErr.{ParseErr};
ghost use Rattle.ml_grammar.specs.Trees.{node, end_of, end_behind, end_of_arm, end_of_branches};

use crate::found::{Found, FoundExpr, Head, deeper, joined, node};
use ml_cursor::ParseErr;
use ml_parse_patterns::FoundParams;
use ml_tree::{Arm, Bind, Expr, ExprKind};
use oxml_base::{Items, Span};
use sqlite_items::Boxed;
use std::alloc::Global;

/// Where the branches of an `if` end.
fn end_of_branches(then: &Boxed<Expr>, other: &Option<Boxed<Expr>>) -> u32
    ensures { result ≡ end_of_branches then.now other.now }
{
    match other {
        Some(other) => other.get().span.end,
        None => then.get().span.end,
    }
}

/// `if e then e [else e]`, the branches as a pair.
pub fn choice(
    alloc: Global,
    head: Head,
    condition: FoundExpr,
    branches: Found<(Boxed<Expr>, Option<Boxed<Expr>>)>,
) -> Result<FoundExpr, ParseErr>
    requires condition { condition.depth < 2 ^ 32 - 1 }
    requires branches { branches.depth < 2 ^ 32 - 1 }
    ensures tree { IfOk result (λ f. f.tree ≡ node head.span.start (end_of_branches branches.tree.0 branches.tree.1) (ExprKind.If condition.tree branches.tree.0 branches.tree.1)) }
    ensures depth { IfOk result (λ f. f.depth ≡ max condition.depth branches.depth + 1) }
    ensures err { IfErr result (λ e. e ≡ ParseErr.NoMemory) }
{
    let depth = deeper(condition.depth, branches.depth);
    let (then, other) = branches.tree;
    let start = head.span.start;
    let end = end_of_branches(&then, &other);
    let kind = ExprKind::If(condition.tree, then, other);
    Ok(node(alloc, Span { start, end }, kind, depth)?)
}

/// `let [rec] binds in e`
pub fn let_in(
    alloc: Global,
    head: Head,
    recursive: bool,
    binds: Found<Items<Bind>>,
    body: FoundExpr,
) -> Result<FoundExpr, ParseErr>
    requires binds { binds.depth < 2 ^ 32 - 1 }
    requires body { body.depth < 2 ^ 32 - 1 }
    ensures tree { IfOk result (λ f. f.tree ≡ node head.span.start (end_of body.tree) (ExprKind.Let recursive binds.tree body.tree)) }
    ensures depth { IfOk result (λ f. f.depth ≡ max binds.depth body.depth + 1) }
    ensures err { IfErr result (λ e. e ≡ ParseErr.NoMemory) }
{
    let span = joined(head.span, body.tree.get().span);
    let depth = deeper(binds.depth, body.depth);
    let kind = ExprKind::Let {
        recursive,
        binds: binds.tree,
        body: body.tree,
    };
    Ok(node(alloc, span, kind, depth)?)
}

/// The two names of a borrow.
#[derive(Clone, Copy, Debug, PartialEq, Eq)]
pub struct Borrowed {
    pub name: Span,
    pub of: Span,
}

/// `let borrow_ name = of in e`
pub fn borrow(
    alloc: Global,
    head: Head,
    names: Borrowed,
    body: FoundExpr,
) -> Result<FoundExpr, ParseErr>
    requires { body.depth < 2 ^ 32 - 1 }
    ensures tree { IfOk result (λ f. f.tree ≡ node head.span.start (end_of body.tree) (ExprKind.Borrow names.name names.of body.tree)) }
    ensures depth { IfOk result (λ f. f.depth ≡ body.depth + 1) }
    ensures err { IfErr result (λ e. e ≡ ParseErr.NoMemory) }
{
    let span = joined(head.span, body.tree.get().span);
    let kind = ExprKind::Borrow {
        name: names.name,
        of: names.of,
        body: body.tree,
    };
    Ok(node(alloc, span, kind, body.depth)?)
}

/// `fun params -> e`
pub fn fun(
    alloc: Global,
    head: Head,
    params: FoundParams,
    body: FoundExpr,
) -> Result<FoundExpr, ParseErr>
    requires params { params.depth < 2 ^ 32 - 1 }
    requires body { body.depth < 2 ^ 32 - 1 }
    ensures tree { IfOk result (λ f. f.tree ≡ node head.span.start (end_of body.tree) (ExprKind.Fun params.list body.tree)) }
    ensures depth { IfOk result (λ f. f.depth ≡ max params.depth body.depth + 1) }
    ensures err { IfErr result (λ e. e ≡ ParseErr.NoMemory) }
{
    let span = joined(head.span, body.tree.get().span);
    let depth = deeper(params.depth, body.depth);
    let kind = ExprKind::Fun(params.list, body.tree);
    Ok(node(alloc, span, kind, depth)?)
}

/// Where the last arm ends.
fn end_of_last(arms: &[Arm]) -> u32
    ensures { result ≡ end_behind end_of_arm 0 arms.now }
{
    let mut end = 0;
    for arm in arms {
        end = arm.body.span.end;
    }
    end
}

/// `match e with arms`
pub fn matching(
    alloc: Global,
    head: Head,
    scrutinee: FoundExpr,
    arms: Found<Items<Arm>>,
) -> Result<FoundExpr, ParseErr>
    requires scrutinee { scrutinee.depth < 2 ^ 32 - 1 }
    requires arms { arms.depth < 2 ^ 32 - 1 }
    ensures tree { IfOk result (λ f. f.tree ≡ node head.span.start (end_behind end_of_arm 0 arms.tree) (ExprKind.Match scrutinee.tree arms.tree)) }
    ensures depth { IfOk result (λ f. f.depth ≡ max scrutinee.depth arms.depth + 1) }
    ensures err { IfErr result (λ e. e ≡ ParseErr.NoMemory) }
{
    let start = head.span.start;
    let end = end_of_last(arms.tree.as_slice());
    let depth = deeper(scrutinee.depth, arms.depth);
    let kind = ExprKind::Match(scrutinee.tree, arms.tree);
    Ok(node(alloc, Span { start, end }, kind, depth)?)
}

/// `function arms`
pub fn function(alloc: Global, head: Head, arms: Found<Items<Arm>>) -> Result<FoundExpr, ParseErr>
    requires { arms.depth < 2 ^ 32 - 1 }
    ensures tree { IfOk result (λ f. f.tree ≡ node head.span.start (end_behind end_of_arm 0 arms.tree) (ExprKind.Function arms.tree)) }
    ensures depth { IfOk result (λ f. f.depth ≡ arms.depth + 1) }
    ensures err { IfErr result (λ e. e ≡ ParseErr.NoMemory) }
{
    let start = head.span.start;
    let end = end_of_last(arms.tree.as_slice());
    let kind = ExprKind::Function(arms.tree);
    Ok(node(alloc, Span { start, end }, kind, arms.depth)?)
}
