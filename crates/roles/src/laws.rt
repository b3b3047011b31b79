//! What rights come from.
ghost use Rattle.std.specs.Prelude.{◌↔◌};
ghost use Rattle.scope_names.specs.declared.action.Action.{Action};
ghost use Rattle.scope_filters.specs.declared.object.Object.{Object};
ghost use Rattle.hub_rows.specs.declared.records.Token.{Token};
ghost use Rattle.hub_tables.specs.State.{State};
ghost use Rattle.roles.specs.Rights.{IsAllowed};
ghost use Rattle.roles.specs.Sources.{HaveSameSources};

/// What a token is allowed depends on nothing but the groups, the roles, the shares, the declared scopes, whether its owner is an admin,
/// and the token's own scopes and owner. It does nothing: its contract is the law.
pub fn rights_come_from_their_sources()
    ensures { (t t' : State) (k k' : Token) → HaveSameSources t t' k k' → (a : Action) (x : Object) → IsAllowed t k a x
        ↔ IsAllowed t' k' a x }
{}
