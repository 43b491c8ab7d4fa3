//! The nodes of types.
ghost use Rattle.std.specs.Prelude.{◌≡◌, IfOk, IfErr, [], ◌∷◌};
ghost use Rattle.ml_parse_types.specs.Types.{variable, applied, an_arg, an_arrow, a_type};
ghost use Rattle.ml_tree.specs.declared.types.TyKind.TheVariants.{Tuple};

use ml_cursor::ParseErr;
use ml_tree::{Arg, TyExpr, TyKind, Words};
use oxml_base::{Items, Span};
use sqlite_items::Boxed;
use std::alloc::Global;

pub fn make_variable(span: Span) -> TyExpr
    ensures { result ≡ variable span }
{
    TyExpr {
        id: 0,
        span,
        kind: TyKind::Var(span),
    }
}

pub fn make_applied(span: Span, name: Span, args: Items<TyExpr>) -> TyExpr
    ensures { result ≡ applied span name args }
{
    TyExpr {
        id: 0,
        span,
        kind: TyKind::Con { name, args },
    }
}

/// A name applied to one type.
pub fn make_postfix(alloc: Global, span: Span, name: Span, arg: TyExpr) -> Result<TyExpr, ParseErr>
    ensures ok { IfOk result (λ t. t ≡ applied span name (arg ∷ [])) }
    ensures err { IfErr result (λ e. e ≡ ParseErr.NoMemory) }
{
    let mut args = Items::new(alloc);
    args.push(arg)?;
    Ok(make_applied(span, name, args))
}

pub fn make_tuple(span: Span, parts: Items<TyExpr>) -> TyExpr
    ensures { result ≡ a_type span (Tuple parts) }
{
    TyExpr {
        id: 0,
        span,
        kind: TyKind::Tuple(parts),
    }
}

pub fn make_arrow(alloc: Global, span: Span, from: Arg, to: Arg) -> Result<TyExpr, ParseErr>
    ensures ok { IfOk result (λ t. t ≡ an_arrow span from to) }
    ensures err { IfErr result (λ e. e ≡ ParseErr.NoMemory) }
{
    let from = Boxed::new(alloc, from)?;
    let to = Boxed::new(alloc, to)?;
    Ok(TyExpr {
        id: 0,
        span,
        kind: TyKind::Arrow { from, to },
    })
}

pub fn make_arg(words: Words, ty: TyExpr) -> Arg
    ensures { result ≡ an_arg words ty }
{
    Arg { words, ty }
}
