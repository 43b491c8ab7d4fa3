ghost use Rattle.std.specs.Prelude.{◌≡◌, IfOk};
ghost use Rattle.ml_numbers.specs.Steps.{node, of_type};

use oxml_base::NoMemory;

/// The next numbers of nodes and of type expressions.
#[derive(Clone, Copy)]
pub struct Next {
    pub nodes: u32,
    pub types: u32,
}

/// The number of a node; `NoMemory` where the numbers have come to their end.
pub fn node_number(next: &mut Next) -> Result<u32, NoMemory>
    ensures { IfOk result (λ id. node next.old ≡ (id, next.new)) }
{
    let id = next.nodes;
    let Some(behind) = id.checked_add(1) else {
        return Err(NoMemory);
    };
    next.nodes = behind;
    Ok(id)
}

/// The number of a type expression; `NoMemory` where the numbers have come to their end.
pub fn type_number(next: &mut Next) -> Result<u32, NoMemory>
    ensures { IfOk result (λ id. of_type next.old ≡ (id, next.new)) }
{
    let id = next.types;
    let Some(behind) = id.checked_add(1) else {
        return Err(NoMemory);
    };
    next.types = behind;
    Ok(id)
}
