//! Types as they are written.

use super::inferring::Inference;
use ml_types::{Scheme, TyId, TyNode};
use ml_typing::Typed;
use std::alloc::{AllocError, Global};
use std::fmt::Write;

/// Where a type stands: what has a looser form there stands in parentheses.
#[derive(Clone, Copy, PartialEq, Eq)]
enum Level {
    /// Any type stands without parentheses.
    Any,
    /// Before an arrow.
    Parameter,
    /// Among the parts of a product, or before a type's name.
    Part,
}

/// What is still to be written.
#[derive(Clone, Copy)]
enum Piece {
    Type(TyId, Level),
    /// The name of the declaration of this number.
    Name(u32),
    Sign(&'static str),
}

/// The names of the predefined types.
const PREDEFINED: [&str; 7] = ["int", "char", "string", "bool", "unit", "list", "option"];

/// The letters of the variables of a scheme.
const LETTERS: &str = "abcdefghijklmnopqrstuvwxyz";

/// A scheme, its variables called `'a`, `'b` and so on in their order. A variable that it does not
/// generalise is `_`.
pub fn scheme(
    alloc: Global,
    of: &Inference,
    typed: &Typed,
    scheme: &Scheme,
) -> Result<String, AllocError> {
    let mut out = String::new(alloc);
    let mut rest = Vec::new(alloc);
    rest.push(Piece::Type(scheme.ty, Level::Any))?;
    for _piece in 0..1_000_000 {
        match rest.pop() {
            None => return Ok(out),
            Some(Piece::Sign(sign)) => out.push_str(sign)?,
            Some(Piece::Name(number)) => name(of, number, &mut out)?,
            Some(Piece::Type(id, level)) => {
                let Some(node) = typed.table.nodes.as_slice().get(id.0 as usize) else {
                    return Ok(out);
                };
                if let TyNode::Var(number) = node {
                    variable(scheme, *number, &mut out)?;
                }
                let mut pieces = pieces_of(alloc, node, level)?;
                for _piece in 0..pieces.len() {
                    if let Some(piece) = pieces.pop() {
                        rest.push(piece)?;
                    }
                }
            }
        }
    }
    Ok(out)
}

/// The name of a declaration.
fn name(of: &Inference, number: u32, out: &mut String) -> Result<(), AllocError> {
    if let Some(word) = PREDEFINED.get(number as usize) {
        return out.push_str(word);
    }
    let Some(info) = of.decls.types.as_slice().get(number as usize) else {
        return out.push('?');
    };
    let start = info.name.start as usize;
    let end = info.name.end as usize;
    for byte in of.text.as_slice().get(start..end).unwrap_or(&[]) {
        out.push(*byte as char)?;
    }
    Ok(())
}

/// A variable of a scheme.
fn variable(scheme: &Scheme, number: u32, out: &mut String) -> Result<(), AllocError> {
    for (letter, var) in LETTERS.chars().zip(scheme.vars.as_slice()) {
        if *var == number {
            return write!(out, "'{letter}");
        }
    }
    out.push('_')
}

/// The pieces of a type, in their order.
fn pieces_of(alloc: Global, node: &TyNode, level: Level) -> Result<Vec<Piece>, AllocError> {
    let mut pieces = Vec::new(alloc);
    match node {
        TyNode::Var(_) => {}
        TyNode::Con(number, args) => {
            applied(args.as_slice(), &mut pieces)?;
            pieces.push(Piece::Name(*number))?;
        }
        TyNode::Tuple(parts) => {
            let closed = level == Level::Part;
            open(closed, &mut pieces)?;
            separated(parts.as_slice(), " * ", Level::Part, &mut pieces)?;
            close(closed, &mut pieces)?;
        }
        TyNode::Arrow { slot: _, from, to } => {
            let closed = level != Level::Any;
            open(closed, &mut pieces)?;
            pieces.push(Piece::Type(*from, Level::Parameter))?;
            pieces.push(Piece::Sign(" -> "))?;
            pieces.push(Piece::Type(*to, Level::Any))?;
            close(closed, &mut pieces)?;
        }
    }
    Ok(pieces)
}

/// The arguments before a type's name.
fn applied(args: &[TyId], pieces: &mut Vec<Piece>) -> Result<(), AllocError> {
    match args {
        [] => Ok(()),
        [only] => {
            pieces.push(Piece::Type(*only, Level::Part))?;
            pieces.push(Piece::Sign(" "))?;
            Ok(())
        }
        _ => {
            pieces.push(Piece::Sign("("))?;
            separated(args, ", ", Level::Any, pieces)?;
            pieces.push(Piece::Sign(") "))?;
            Ok(())
        }
    }
}

fn open(closed: bool, pieces: &mut Vec<Piece>) -> Result<(), AllocError> {
    if closed {
        pieces.push(Piece::Sign("("))?;
    }
    Ok(())
}

fn close(closed: bool, pieces: &mut Vec<Piece>) -> Result<(), AllocError> {
    if closed {
        pieces.push(Piece::Sign(")"))?;
    }
    Ok(())
}

/// Types with a sign between them.
fn separated(
    parts: &[TyId],
    sign: &'static str,
    level: Level,
    pieces: &mut Vec<Piece>,
) -> Result<(), AllocError> {
    let mut first = true;
    for part in parts {
        if !first {
            pieces.push(Piece::Sign(sign))?;
        }
        first = false;
        pieces.push(Piece::Type(*part, level))?;
    }
    Ok(())
}
