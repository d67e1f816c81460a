//! What `check` prints: the core models of each right.

ghost use Rattle.std.specs.Prelude.{◌≡◌, ◌++◌, ◌∷◌, [], map, IfOk, OnOk};
ghost use Rattle.ucon_model.specs.Checked.{checked_policy};
ghost use Rattle.ucon_model.specs.Views.{right_of};
ghost use Rattle.ucon_trial.specs.Models.{models_spelling, right_spelling, rights_output};

use std::alloc::Global;
use ucon_base::NoMemory;
use ucon_check::{core_models_of, core_name};
use ucon_model::{Checked, Core, Right};

/// One line for each right of the policy: its name and its core models.
pub fn models_text(alloc: Global, checked: &Checked) -> Result<Vec<u8>, NoMemory>
    ensures { IfOk result (λ text. text.items ≡ rights_output (checked_policy checked.now).rights) }
{
    let mut text = Vec::new(alloc);
    put_rights(alloc, &mut text, checked.policy().rights.slice())?;
    Ok(text)
}

fn put_rights(alloc: Global, out: &mut Vec<u8>, rights: &[Right]) -> Result<(), NoMemory>
    ensures { OnOk result (out.new.items ≡ out.old.items ++ rights_output (map right_of rights.now)) }
{
    for right in rights {
        put_right(alloc, out, right)?;
        out.push(b'\n')?;
    }
    Ok(())
}

fn put_right(alloc: Global, out: &mut Vec<u8>, right: &Right) -> Result<(), NoMemory>
    ensures { OnOk result (out.new.items ≡ out.old.items ++ right_spelling (right_of right.now)) }
{
    out.extend_from_slice(b"right ")?;
    out.extend_from_slice(right.name.bytes())?;
    let cores = core_models_of(alloc, right)?;
    put_cores(alloc, out, cores.slice())
}

fn put_cores(alloc: Global, out: &mut Vec<u8>, cores: &[Core]) -> Result<(), NoMemory>
    ensures { OnOk result (out.new.items ≡ out.old.items ++ models_spelling cores.now) }
{
    for core in cores {
        let name = core_name(alloc, *core)?;
        out.push(b' ')?;
        out.extend_from_slice(&name)?;
    }
    Ok(())
}
