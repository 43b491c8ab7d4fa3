ghost use Rattle.std.specs.Prelude.{◌≡◌, ℕ, ◌<◌, ◌^◌, Bool, length, map, not, slice_get, Some, IfOk, IfErr};
ghost use Rattle.mode_lattice.specs.declared.clause.Clause.{Clause};
ghost use Rattle.mode_lattice.specs.Clauses.{IsClosed, IsLeast, IsGreatest};
ghost use Rattle.oxml_base.specs.declared.refusal.Refusal.{Refusal};
ghost use Rattle.mode_solver.specs.declared.error.ModeErr.TheVariants.{Refused};
ghost use Rattle.mode_solver.specs.Forms.{Fits, AllBelow};
ghost use Rattle.mode_solver.specs.Searching.{IsGreatestOf};
ghost use Rattle.mode_solver.specs.Solving.{IsCause};

use crate::error::ModeErr;
use crate::search::{Outcome, search_all};
use crate::turn::turn_all;
use mode_lattice::{Clause, ClauseList, Form, Solved, Table};
use oxml_base::{Items, NoMemory, Refusal};
use std::alloc::Global;

/// The least and the greatest of the tables that obey the clauses. Each table that obeys them lies
/// between the two.
///
/// # Errors
///
/// `Refused` exactly where no table obeys the clauses. Its `k` is the number of the last clause of the
/// shortest beginning of the list that no table obeys.
pub fn solve(alloc: Global, c: &ClauseList) -> Result<Solved, ModeErr>
    requires closed { IsClosed c.now }
    requires short { length c.now.list < 2 ^ 32 }
    ensures least { IfOk result (λ s. IsLeast c.now s.least) }
    ensures greatest { IfOk result (λ s. IsGreatest c.now s.greatest) }
    ensures refused { IfErr result (IsCause c.now) }
{
    let list = c.list.as_slice();
    let forms = forms_of(alloc, list)?;
    match search_all(alloc, c.bits, forms.as_slice())? {
        Outcome::Conflict { last, path } => Err(refused(list, last, path)),
        Outcome::Least(least) => {
            let greatest = greatest(alloc, c.bits, forms.as_slice())?;
            Ok(Solved {
                least: table(least),
                greatest: table(greatest),
            })
        }
    }
}

fn forms_of(alloc: Global, list: &[Clause]) -> Result<Vec<Form>, NoMemory>
    ensures { IfOk result (λ v. v.items ≡ map (λ c. c.form) list.now) }
{
    Ok(list.iter().map(|clause| clause.form).collect(alloc)?)
}

fn table(bits: Vec<bool>) -> Table
    ensures { result.bits ≡ bits.items }
{
    Table {
        bits: Items::from_vec(bits),
    }
}

/// The refusal by clause `k`.
fn refused(list: &[Clause], k: u32, path: Items<u32>) -> ModeErr
    requires { k < length list.now }
    ensures { (clause : Clause) × (slice_get list.now k ≡ Some clause) × (result ≡ Refused k (record { rule = clause.rule; span = clause.span }) path) }
{
    let clause = &list[k as usize];
    let refusal = Refusal {
        rule: clause.rule,
        span: clause.span,
    };
    ModeErr::Refused { k, refusal, path }
}

/// The greatest of the tables that fit the forms: the opposite of the least of those that fit the turned
/// forms.
fn greatest(alloc: Global, bits: u32, forms: &[Form]) -> Result<Vec<bool>, NoMemory>
    requires below { AllBelow bits forms.now }
    requires short { length forms.now < 2 ^ 32 }
    requires some { (t : ℕ → Bool) × Fits t forms.now }
    ensures { IfOk result (λ v. IsGreatestOf bits forms.now v.items) }
{
    let turned = turn_all(alloc, forms)?;
    match search_all(alloc, bits, turned.as_slice())? {
        Outcome::Least(least) => opposite(alloc, least.as_slice()),
        Outcome::Conflict { .. } => unreachable!(),
    }
}

fn opposite(alloc: Global, table: &[bool]) -> Result<Vec<bool>, NoMemory>
    ensures { IfOk result (λ v. v.items ≡ map not table.now) }
{
    Ok(table.iter().map(|bit| !*bit).collect(alloc)?)
}
