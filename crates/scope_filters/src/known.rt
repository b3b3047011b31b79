//! Scopes whose custom names are declared.
ghost use Rattle.std.specs.Prelude.{◌≡◌};
ghost use Rattle.std.specs.Option.{option_copied};
ghost use Rattle.scope_filters.specs.Known.{is_known_scope, unknown_scope};

use crate::scope::RawScope;
use scope_names::action::Action;
use scope_names::table::ScopeTable;

/// The first scope whose custom name isn't declared.
pub fn unknown_scope<'a>(table: &ScopeTable, scopes: &'a [RawScope]) -> Option<&'a RawScope>
    ensures { option_copied result ≡ unknown_scope table.now scopes.now }
{
    for scope in scopes {
        if !is_known_scope(table, scope) {
            return Some(scope);
        }
    }
    None
}

fn is_known_scope(table: &ScopeTable, scope: &RawScope) -> bool
    ensures { result ≡ is_known_scope table.now scope.now }
{
    match scope {
        RawScope::Plain { action, .. } => match action {
            Action::Custom(name) => table.declares(*name),
            _ => true,
        },
        RawScope::SelfScope | RawScope::Inherit => true,
    }
}
