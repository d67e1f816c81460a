//! How many distinct places a right reads, without memory.

ghost use Rattle.std.specs.Prelude.{◌≡◌, ◌+◌, ◌≤◌, None, filter, length};
ghost use Rattle.ucon_model.specs.Places.{attr_place, places_read};
ghost use Rattle.ucon_model.specs.Typing.{undeclared};
ghost use Rattle.ucon_model.specs.Views.{right_of, policy_of};
ghost use Rattle.ucon_check.specs.Counted.{AreDeclaredOnce};
ghost use Rattle.ucon_check.specs.Sought.{all_read, is_read};

use crate::places::attr_place;
use crate::sought::is_read;
use ucon_model::{AttrDecl, EnvDecl, Policy, Ref, Right};

/// How many of these attributes a right's ongoing predicates read.
fn attrs_read(attrs: &[AttrDecl], right: &Right) -> usize
    ensures count { result ≡ length (filter (λ d. is_read (right_of right.now) (attr_place d.side d.name)) attrs.now) }
    ensures within { result ≤ length attrs.now }
{
    let mut count = 0;
    for d in attrs {
        if is_read(right, &attr_place(d.side, &d.name)) {
            count += 1;
        }
    }
    count
}

/// How many of these variables a right's ongoing predicates read.
fn envs_read(envs: &[EnvDecl], right: &Right) -> usize
    ensures count { result ≡ length (filter (λ d. is_read (right_of right.now) (Ref.Env d.name)) envs.now) }
    ensures within { result ≤ length envs.now }
{
    let mut count = 0;
    for d in envs {
        if is_read(right, &Ref::Env(d.name)) {
            count += 1;
        }
    }
    count
}

/// How many distinct places a right's ongoing predicates read: as many as of the declared ones, since each is declared, and once.
pub fn count_read(policy: &Policy, right: &Right) -> usize
    requires once { AreDeclaredOnce (policy_of policy.now) }
    requires declared { undeclared (policy_of policy.now) (all_read (right_of right.now)) ≡ None }
    ensures { result ≡ length (places_read (right_of right.now)) }
{
    attrs_read(policy.attrs.slice(), right) + envs_read(policy.envs.slice(), right)
}
