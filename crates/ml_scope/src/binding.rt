//! Names that come into scope together.
ghost use Rattle.std.specs.Prelude.{◌≡◌, [], OnOk};
ghost use Rattle.ml_scope.specs.Binding.{binder_of, value_at, bound, twice};

use crate::binder::Binder;
use crate::found::Found;
use crate::journal::offence_where;
use crate::known::Known;
use crate::meaning::Meaning;
use crate::scope::Scope;
use ml_tree::Ref;
use oxml_base::{Items, NoMemory, Rule};

/// What a use of a bound name points to: the binder of an item, or any other.
fn binder_of(top: bool, node: u32) -> Ref
    ensures { result ≡ binder_of top node }
{
    if top {
        Ref::Top(node)
    } else {
        Ref::Local(node)
    }
}

fn value_at(top: bool, node: u32) -> Meaning
    ensures { result ≡ value_at top node }
{
    Meaning {
        target: binder_of(top, node),
        declaration: 0,
        place: 0,
        parts: 0,
    }
}

/// Names come into scope, the last the nearest.
pub fn bind_all(
    known: &Known,
    top: bool,
    list: &[Binder],
    scope: &mut Scope,
) -> Result<(), NoMemory>
    ensures { OnOk result (scope.new ≡ bound known.now top list.now scope.old) }
{
    for one in list {
        scope.bind(known.spelling(one.name), value_at(top, one.node))?;
    }
    Ok(())
}

/// Reports each name of a group that was bound in it before.
pub fn report_twice(
    known: &Known,
    list: &[Binder],
    journal: &mut Items<Found>,
) -> Result<(), NoMemory>
    ensures { OnOk result (journal.new ≡ twice known.now [] list.now journal.old) }
{
    let mut seen = Scope::new(known.alloc());
    for one in list {
        let name = known.spelling(one.name);
        let again = seen.find(name).is_some();
        seen.bind(name, value_at(false, one.node))?;
        offence_where(again, Rule::BoundTwice, one.name, journal)?;
    }
    Ok(())
}
