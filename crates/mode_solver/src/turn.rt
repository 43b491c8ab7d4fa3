ghost use Rattle.std.specs.Prelude.{◌≡◌, map, IfOk};
ghost use Rattle.mode_solver.specs.Forms.{turned};

use mode_lattice::Form;
use oxml_base::NoMemory;
use std::alloc::Global;

/// The form that a table obeys where the table with the opposite bits obeys this one.
fn turn(form: Form) -> Form
    ensures { result ≡ turned form }
{
    match form {
        Form::Imply(from, to) => Form::Imply(to, from),
        Form::Force(bit) => Form::Forbid(bit),
        Form::Forbid(bit) => Form::Force(bit),
    }
}

pub fn turn_all(alloc: Global, forms: &[Form]) -> Result<Vec<Form>, NoMemory>
    ensures { IfOk result (λ v. v.items ≡ map turned forms.now) }
{
    Ok(forms.iter().map(|form| turn(*form)).collect(alloc)?)
}
