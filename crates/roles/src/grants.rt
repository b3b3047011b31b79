//! The grants of owners and tokens.
ghost use Rattle.std.specs.Prelude.{◌≡◌, ◌↔◌, IsTrue, IfOk};
ghost use Rattle.scope_names.specs.declared.action.Action.{Action};
ghost use Rattle.scope_filters.specs.declared.object.Object.{Object};
ghost use Rattle.scope_filters.specs.Grants.{grant_admits};
ghost use Rattle.scope_expand.specs.Meaning.{IsMeant};
ghost use Rattle.scope_expand.specs.Passes.{HasNoOwnerOf};
ghost use Rattle.scope_meet.specs.Named.{AdmitsSomething};
ghost use Rattle.roles.specs.Rights.{context, OwnerMay, IsAllowed, Holds, IsGrantOf};
ghost use Rattle.roles.specs.Rights as spec;

use crate::held::scopes_held;
use hub_rows::records::Token;
use hub_tables::tables::Tables;
use scope_expand::expand;
use scope_filters::grant::Grant;
use scope_filters::holder::{Holder, Owner};
use scope_filters::scope::RawScope;
use scope_meet::meets::meet;
use std::alloc::{AllocError, Global};

/// All that the owner may do, by its roles and, for a user, by the shares that the user or one of the user's groups received.
pub fn owner_grant(alloc: Global, t: &Tables, owner: &Owner) -> Result<Grant, AllocError>
    ensures admits { IfOk result (IsGrantOf t.now (OwnerMay t.now owner.now)) }
    ensures owners { IfOk result HasNoOwnerOf }
{
    let scopes = scopes_held(alloc, t, owner)?;
    let holder = Holder {
        owner: *owner,
        issued_for: None,
    };
    expand(alloc, t.scope_table(), &scopes, &holder)
}

/// All that the token may do: what its owner may do now, within the token's scopes. `inherit` among them stands for all that the
/// owner may do.
pub fn caller_grant(alloc: Global, t: &Tables, token: &Token) -> Result<Grant, AllocError>
    ensures admits { IfOk result (IsGrantOf t.now (IsAllowed t.now token.now)) }
    ensures holds { IfOk result (λ grant. (a : Action) → AdmitsSomething (context t.now) grant a ↔ Holds t.now token.now a) }
{
    let rights = owner_grant(alloc, t, &token.owner)?;
    if inherits(token.scopes.as_slice()) {
        return Ok(rights);
    }
    within(alloc, t, token, &rights)
}

/// What the token's scopes mean, within the rights.
fn within(alloc: Global, t: &Tables, token: &Token, rights: &Grant) -> Result<Grant, AllocError>
    ensures { IfOk result (λ grant. (a : Action) (x : Object) → IsTrue (grant_admits (context t.now) grant a x)
        ↔ (IsTrue (grant_admits (context t.now) rights.now a x)
        × IsMeant t.now.scopes token.now.scopes (spec.holder_of token.now) (context t.now) a x)) }
{
    let holder = Holder {
        owner: token.owner,
        issued_for: token.issued_for,
    };
    let scopes = expand(alloc, t.scope_table(), token.scopes.as_slice(), &holder)?;
    meet(alloc, rights, &scopes, t)
}

fn inherits(scopes: &[RawScope]) -> bool
    ensures { result ≡ spec.inherits scopes.now }
{
    scopes
        .iter()
        .any(|scope| matches!(scope, RawScope::Inherit))
}
