//! Whether one policy may follow another while uses go on.

ghost use Rattle.std.specs.Prelude.{◌≡◌, find, option_copied, option_map, Some, IfOk, IfErr};
ghost use Rattle.ucon_check.specs.declared.follow.AmendFault.TheVariants.{KindChanged};
ghost use Rattle.ucon_model.specs.Checked.{checked_policy};
ghost use Rattle.ucon_model.specs.MayFollow.{changed_kind, changes_attr, changes_env, same_kind, MayFollow};
ghost use Rattle.ucon_model.specs.Views.{policy_of};

use ucon_base::{Kind, Name};
use ucon_model::{AttrDecl, Checked, EnvDecl, Policy};

/// Why a policy may not follow another.
#[derive(Clone, Copy, PartialEq, Eq)]
pub enum AmendFault {
    /// The first name, in the old policy's written order and attributes before variables, that both declare with different kinds.
    KindChanged(Name),
}

fn is_same_kind(k: &Kind, l: &Kind) -> bool
    ensures { result ≡ same_kind k.now l.now }
{
    match (k, l) {
        (Kind::Int { low, high }, Kind::Int { low: l, high: h }) => low == l && high == h,
        (Kind::Text, Kind::Text) => true,
        (Kind::Set, Kind::Set) => true,
        _ => false,
    }
}

/// Whether the policy declares the attribute with another kind.
fn changes_attr(new: &Policy, d: &AttrDecl) -> bool
    ensures { result ≡ changes_attr (policy_of new.now).attrs d.now }
{
    match new.attr(d.side, &d.name) {
        Some(e) => !is_same_kind(&d.kind, &e.kind),
        None => false,
    }
}

/// Whether the policy declares the variable with another kind.
fn changes_env(new: &Policy, d: &EnvDecl) -> bool
    ensures { result ≡ changes_env (policy_of new.now).envs d.now }
{
    match new.env(&d.name) {
        Some(e) => !is_same_kind(&d.kind, &e.kind),
        None => false,
    }
}

/// The first of the old policy's attributes that the new one declares with another kind.
fn changed_attr<'a>(old: &'a Policy, new: &Policy) -> Option<&'a AttrDecl>
    ensures { option_copied result ≡ find (changes_attr (policy_of new.now).attrs) (policy_of old.now).attrs }
{
    let mut attrs = old.attrs.slice().iter();
    attrs.find(|d| changes_attr(new, *d))
}

/// The first of the old policy's variables that the new one declares with another kind.
fn changed_env<'a>(old: &'a Policy, new: &Policy) -> Option<&'a EnvDecl>
    ensures { option_copied result ≡ find (changes_env (policy_of new.now).envs) (policy_of old.now).envs }
{
    let mut envs = old.envs.slice().iter();
    envs.find(|d| changes_env(new, *d))
}

/// Nothing, if the new policy may follow the old one. Whatever both declare, an attribute of one side and name or a variable of one name, has to
/// be of the same kind in both, bounds included. No memory is taken.
pub fn may_follow(old: &Checked, new: &Checked) -> Result<(), AmendFault>
    ensures ok { IfOk result (λ done. MayFollow (checked_policy old.now) (checked_policy new.now)) }
    ensures changed { IfErr result (λ fault. option_map KindChanged (changed_kind (checked_policy old.now) (checked_policy new.now)) ≡ Some fault) }
{
    let old = old.policy();
    let new = new.policy();
    if let Some(d) = changed_attr(old, new) {
        return Err(AmendFault::KindChanged(d.name));
    }
    if let Some(d) = changed_env(old, new) {
        return Err(AmendFault::KindChanged(d.name));
    }
    Ok(())
}
