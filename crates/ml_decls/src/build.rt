//! The declarations of a program at their types.
ghost use Rattle.std.specs.Prelude.{[], map, Some, None, IfOk, OnOk};
ghost use Rattle.ml_mentions.specs.Programs.{declarations};
ghost use Rattle.ml_decls.specs.Said.{written, said_arg, said_con, said_field, said};
ghost use Rattle.ml_decls.specs.Tables.{Each, ArgSays, ConSays, FieldSays, Says, Grows, Adds, Declares};

use crate::predefined::predefined;
use crate::table::{Making, count, push_arg, push_type};
use ml_mentions::item_declarations;
use ml_tree::{Arg, ConDecl, ConName, Decl, DeclBody, FieldDecl, Item, Scoped, TyExpr};
use ml_types::{ArgInfo, ConInfo, DeclInfo, Decls, FieldInfo, TyTable};
use oxml_base::{Items, NoMemory, Span};
use std::alloc::Global;

fn arg_infos(s: &Scoped, list: &[Arg], made: &mut Making) -> Result<Items<ArgInfo>, NoMemory>
    ensures grows { OnOk result (Grows made.old.nodes made.new.nodes) }
    ensures say { IfOk result (λ infos. Each (ArgSays made.new.nodes) infos (map (said_arg s.now.types) list.now)) }
{
    let mut infos = Items::new(made.alloc());
    for one in list {
        infos.push(push_arg(s, one, made)?)?;
    }
    Ok(infos)
}

fn con_info(s: &Scoped, one: &ConDecl, made: &mut Making) -> Result<ConInfo, NoMemory>
    ensures grows { OnOk result (Grows made.old.nodes made.new.nodes) }
    ensures says { IfOk result (λ info. ConSays made.new.nodes info (said_con s.now.types one.now)) }
{
    let args = arg_infos(s, one.args.as_slice(), made)?;
    Ok(ConInfo {
        name: ConName::Named(one.name),
        args,
    })
}

fn con_infos(s: &Scoped, list: &[ConDecl], made: &mut Making) -> Result<Items<ConInfo>, NoMemory>
    ensures grows { OnOk result (Grows made.old.nodes made.new.nodes) }
    ensures say { IfOk result (λ infos. Each (ConSays made.new.nodes) infos (map (said_con s.now.types) list.now)) }
{
    let mut infos = Items::new(made.alloc());
    for one in list {
        infos.push(con_info(s, one, made)?)?;
    }
    Ok(infos)
}

fn field_info(s: &Scoped, one: &FieldDecl, made: &mut Making) -> Result<FieldInfo, NoMemory>
    ensures grows { OnOk result (Grows made.old.nodes made.new.nodes) }
    ensures says { IfOk result (λ info. FieldSays made.new.nodes info (said_field s.now.types one.now)) }
{
    let arg = push_arg(s, &one.arg, made)?;
    Ok(FieldInfo {
        name: one.name,
        arg,
    })
}

fn field_infos(
    s: &Scoped,
    list: &[FieldDecl],
    made: &mut Making,
) -> Result<Items<FieldInfo>, NoMemory>
    ensures grows { OnOk result (Grows made.old.nodes made.new.nodes) }
    ensures say { IfOk result (λ infos. Each (FieldSays made.new.nodes) infos (map (said_field s.now.types) list.now)) }
{
    let mut infos = Items::new(made.alloc());
    for one in list {
        infos.push(field_info(s, one, made)?)?;
    }
    Ok(infos)
}

/// A variant of so many variables.
fn variant_info(
    s: &Scoped,
    name: Span,
    vars: u32,
    list: &[ConDecl],
    made: &mut Making,
) -> Result<DeclInfo, NoMemory>
    ensures grows { OnOk result (Grows made.old.nodes made.new.nodes) }
    ensures says { IfOk result (λ info. Says made.new.nodes info (record { name = name; vars = vars; cons = map (said_con s.now.types) list.now; fields = []; alias = None })) }
{
    let cons = con_infos(s, list, made)?;
    Ok(DeclInfo {
        name,
        vars,
        cons,
        fields: Items::new(made.alloc()),
        alias: None,
    })
}

/// A record of so many variables.
fn record_info(
    s: &Scoped,
    name: Span,
    vars: u32,
    list: &[FieldDecl],
    made: &mut Making,
) -> Result<DeclInfo, NoMemory>
    ensures grows { OnOk result (Grows made.old.nodes made.new.nodes) }
    ensures says { IfOk result (λ info. Says made.new.nodes info (record { name = name; vars = vars; cons = []; fields = map (said_field s.now.types) list.now; alias = None })) }
{
    let fields = field_infos(s, list, made)?;
    Ok(DeclInfo {
        name,
        vars,
        cons: Items::new(made.alloc()),
        fields,
        alias: None,
    })
}

/// An abbreviation of so many variables. The names of other abbreviations stay in its type.
fn alias_info(
    s: &Scoped,
    name: Span,
    vars: u32,
    ty: &TyExpr,
    made: &mut Making,
) -> Result<DeclInfo, NoMemory>
    ensures grows { OnOk result (Grows made.old.nodes made.new.nodes) }
    ensures says { IfOk result (λ info. Says made.new.nodes info (record { name = name; vars = vars; cons = []; fields = []; alias = Some (written s.now.types ty.now) })) }
{
    let alias = push_type(s, ty, made)?;
    Ok(DeclInfo {
        name,
        vars,
        cons: Items::new(made.alloc()),
        fields: Items::new(made.alloc()),
        alias: Some(alias),
    })
}

fn decl_info(s: &Scoped, one: &Decl, made: &mut Making) -> Result<DeclInfo, NoMemory>
    ensures grows { OnOk result (Grows made.old.nodes made.new.nodes) }
    ensures says { IfOk result (λ info. Says made.new.nodes info (said s.now.types one.now)) }
{
    let vars = count(one.vars.len())?;
    match &one.body {
        DeclBody::Variant(list) => {
            let info = variant_info(s, one.name, vars, list.as_slice(), made)?;
            Ok(info)
        }
        DeclBody::Fields(list) => {
            let info = record_info(s, one.name, vars, list.as_slice(), made)?;
            Ok(info)
        }
        DeclBody::Alias(ty) => {
            let info = alias_info(s, one.name, vars, ty, made)?;
            Ok(info)
        }
    }
}

/// Adds the declarations of an item.
fn push_infos(
    s: &Scoped,
    list: &[Decl],
    infos: &mut Items<DeclInfo>,
    made: &mut Making,
) -> Result<(), NoMemory>
    ensures { OnOk result (Adds s.now.types made.old.nodes made.new.nodes infos.old infos.new list.now) }
{
    for one in list {
        infos.push(decl_info(s, one, made)?)?;
    }
    Ok(())
}

/// Adds the declarations of these items.
fn push_items(
    s: &Scoped,
    items: &[Item],
    infos: &mut Items<DeclInfo>,
    made: &mut Making,
) -> Result<(), NoMemory>
    ensures { OnOk result (Adds s.now.types made.old.nodes made.new.nodes infos.old infos.new (declarations items.now)) }
{
    for item in items {
        push_infos(s, item_declarations(&item.kind), infos, made)?;
    }
    Ok(())
}

/// The declarations of a program, the predefined ones first, with the table of their types.
pub fn declare(alloc: Global, s: &Scoped, items: &[Item]) -> Result<(Decls, TyTable), NoMemory>
    ensures { IfOk result (λ made. Declares s.now.types (declarations items.now) made.0.types made.1.nodes) }
{
    let mut made = Making::new(alloc);
    let mut types = predefined(&mut made)?;
    push_items(s, items, &mut types, &mut made)?;
    let Making { nodes, .. } = made;
    Ok((Decls { types }, TyTable { nodes }))
}
