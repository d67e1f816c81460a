//! Copies of policies and of their parts.

ghost use Rattle.std.specs.Prelude.{◌≡◌, map, IfOk};
ghost use Rattle.ucon_model.specs.Views.{policy_of, predicate_of, right_of, test_of, update_of};

use crate::{AttrDecl, EnvDecl, Policy, Predicate, Right, Test, Update};
use std::alloc::Global;
use ucon_base::{NoMemory, Rows};

impl Policy {
    /// Copies the policy, with its rows in the same order. `Err` if there is no memory.
    pub fn copy(&self, alloc: Global) -> Result<Policy, NoMemory>
        ensures { IfOk result (λ p. policy_of p ≡ policy_of self.now) }
    {
        Ok(Policy {
            attrs: attrs(alloc, self.attrs.slice())?,
            envs: envs(alloc, self.envs.slice())?,
            rights: rights(alloc, self.rights.slice())?,
        })
    }
}

impl AttrDecl {
    /// Copies the declaration. `Err` if there is no memory.
    pub fn copy(&self, alloc: Global) -> Result<AttrDecl, NoMemory>
        ensures { IfOk result (λ d. d ≡ self.now) }
    {
        Ok(AttrDecl {
            side: self.side,
            name: self.name,
            kind: self.kind,
            start: self.start.copy(alloc)?,
        })
    }
}

impl EnvDecl {
    /// Copies the declaration. `Err` if there is no memory.
    pub fn copy(&self, alloc: Global) -> Result<EnvDecl, NoMemory>
        ensures { IfOk result (λ d. d ≡ self.now) }
    {
        Ok(EnvDecl {
            name: self.name,
            kind: self.kind,
            start: self.start.copy(alloc)?,
        })
    }
}

impl Right {
    /// Copies the right, with its predicates and updates in the same order. `Err` if there is no memory.
    pub fn copy(&self, alloc: Global) -> Result<Right, NoMemory>
        ensures { IfOk result (λ r. right_of r ≡ right_of self.now) }
    {
        Ok(Right {
            name: self.name,
            preds: predicates(alloc, self.preds.slice())?,
            updates: updates(alloc, self.updates.slice())?,
        })
    }
}

impl Predicate {
    /// Copies the predicate. `Err` if there is no memory.
    pub fn copy(&self, alloc: Global) -> Result<Predicate, NoMemory>
        ensures { IfOk result (λ p. predicate_of p ≡ predicate_of self.now) }
    {
        Ok(Predicate {
            phase: self.phase,
            label: self.label,
            test: self.test.copy(alloc)?,
        })
    }
}

impl Test {
    /// Copies the test. `Err` if there is no memory.
    pub fn copy(&self, alloc: Global) -> Result<Test, NoMemory>
        ensures { IfOk result (λ t. test_of t ≡ test_of self.now) }
    {
        Ok(match self {
            Test::Authorisation(f) => Test::Authorisation(f.copy(alloc)?),
            Test::Obligation(o) => Test::Obligation(*o),
            Test::Condition(f) => Test::Condition(f.copy(alloc)?),
        })
    }
}

impl Update {
    /// Copies the update. `Err` if there is no memory.
    pub fn copy(&self, alloc: Global) -> Result<Update, NoMemory>
        ensures { IfOk result (λ u. update_of u ≡ update_of self.now) }
    {
        Ok(Update {
            when: self.when,
            side: self.side,
            attr: self.attr,
            value: self.value.copy(alloc)?,
        })
    }
}

fn attrs(alloc: Global, attrs: &[AttrDecl]) -> Result<Rows<AttrDecl>, NoMemory>
    ensures { IfOk result (λ rows. rows.items ≡ attrs.now) }
{
    let mut rows = Rows::new(alloc);
    rows.reserve(attrs.len())?;
    for d in attrs {
        rows.push(d.copy(alloc)?)?;
    }
    Ok(rows)
}

fn envs(alloc: Global, envs: &[EnvDecl]) -> Result<Rows<EnvDecl>, NoMemory>
    ensures { IfOk result (λ rows. rows.items ≡ envs.now) }
{
    let mut rows = Rows::new(alloc);
    rows.reserve(envs.len())?;
    for d in envs {
        rows.push(d.copy(alloc)?)?;
    }
    Ok(rows)
}

fn rights(alloc: Global, rights: &[Right]) -> Result<Rows<Right>, NoMemory>
    ensures { IfOk result (λ rows. map right_of rows.items ≡ map right_of rights.now) }
{
    let mut rows = Rows::new(alloc);
    rows.reserve(rights.len())?;
    for r in rights {
        rows.push(r.copy(alloc)?)?;
    }
    Ok(rows)
}

fn predicates(alloc: Global, preds: &[Predicate]) -> Result<Rows<Predicate>, NoMemory>
    ensures { IfOk result (λ rows. map predicate_of rows.items ≡ map predicate_of preds.now) }
{
    let mut rows = Rows::new(alloc);
    rows.reserve(preds.len())?;
    for p in preds {
        rows.push(p.copy(alloc)?)?;
    }
    Ok(rows)
}

fn updates(alloc: Global, updates: &[Update]) -> Result<Rows<Update>, NoMemory>
    ensures { IfOk result (λ rows. map update_of rows.items ≡ map update_of updates.now) }
{
    let mut rows = Rows::new(alloc);
    rows.reserve(updates.len())?;
    for u in updates {
        rows.push(u.copy(alloc)?)?;
    }
    Ok(rows)
}
