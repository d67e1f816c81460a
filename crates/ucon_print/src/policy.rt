//! Rights and whole policies.

ghost use Rattle.std.specs.Prelude.{◌≡◌, ◌++◌, map, IfOk, OnOk};
ghost use Rattle.std.specs.List.{flat_map};
ghost use Rattle.ucon_model.specs.Views.{predicate_of, update_of, right_of, policy_of};
ghost use Rattle.ucon_model.specs.Printing.{attr_printing, env_printing, predicate_printing, update_printing, right_printing, policy_printing};
ghost use Rattle.ucon_model.specs.Spells.{Spells};
ghost use Rattle.ucon_print.specs.Printable.{IsPrintable};

use crate::items::{put_attr, put_env, put_predicate, put_update};
use std::alloc::Global;
use ucon_base::{NoMemory, put};
use ucon_model::{AttrDecl, EnvDecl, Policy, Predicate, Right, Update};

fn put_attrs(out: &mut Vec<u8>, attrs: &[AttrDecl]) -> Result<(), NoMemory>
    ensures { OnOk result (out.new.items ≡ out.old.items ++ flat_map attr_printing attrs.now) }
{
    for attr in attrs {
        put_attr(out, attr)?;
    }
    Ok(())
}

fn put_envs(out: &mut Vec<u8>, envs: &[EnvDecl]) -> Result<(), NoMemory>
    ensures { OnOk result (out.new.items ≡ out.old.items ++ flat_map env_printing envs.now) }
{
    for env in envs {
        put_env(out, env)?;
    }
    Ok(())
}

fn put_predicates(out: &mut Vec<u8>, preds: &[Predicate]) -> Result<(), NoMemory>
    ensures { OnOk result (out.new.items ≡ out.old.items ++ flat_map predicate_printing (map predicate_of preds.now)) }
{
    for pred in preds {
        put_predicate(out, pred)?;
    }
    Ok(())
}

fn put_updates(out: &mut Vec<u8>, updates: &[Update]) -> Result<(), NoMemory>
    ensures { OnOk result (out.new.items ≡ out.old.items ++ flat_map update_printing (map update_of updates.now)) }
{
    for update in updates {
        put_update(out, update)?;
    }
    Ok(())
}

fn put_right(out: &mut Vec<u8>, right: &Right) -> Result<(), NoMemory>
    ensures { OnOk result (out.new.items ≡ out.old.items ++ right_printing (right_of right.now)) }
{
    put(out, b"right ")?;
    put(out, right.name.bytes())?;
    put(out, b" {\n")?;
    put_predicates(out, right.preds.slice())?;
    put_updates(out, right.updates.slice())?;
    put(out, b"}\n")?;
    Ok(())
}

fn put_rights(out: &mut Vec<u8>, rights: &[Right]) -> Result<(), NoMemory>
    ensures { OnOk result (out.new.items ≡ out.old.items ++ flat_map right_printing (map right_of rights.now)) }
{
    for right in rights {
        put_right(out, right)?;
    }
    Ok(())
}

/// The plain text of a policy.
pub fn policy_text(alloc: Global, policy: &Policy) -> Result<Vec<u8>, NoMemory>
    ensures printing { IfOk result (λ text. text.items ≡ policy_printing (policy_of policy.now)) }
    ensures read_back { IsPrintable (policy_of policy.now) → IfOk result (λ text. Spells text.items (policy_of policy.now)) }
{
    let mut out = Vec::new(alloc);
    put_attrs(&mut out, policy.attrs.slice())?;
    put_envs(&mut out, policy.envs.slice())?;
    put_rights(&mut out, policy.rights.slice())?;
    Ok(out)
}
