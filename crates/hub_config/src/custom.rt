//! Custom scopes: which are declared.
ghost use Rattle.std.specs.Prelude.{◌≡◌, false, None, IfOk, IfErr, IfSome};
ghost use Rattle.hub_opening.specs.Kept.{MakeTable};
ghost use Rattle.hub_config.specs.Custom as spec;

use crate::config_key::ConfigKey;
use crate::fault::{Fault, Rule};
use crate::setting::ConfigError;
use hub_opening::config::{ConfigToken, HubConfig};
use hub_rows::records::Role;
use scope_filters::scope::RawScope;
use scope_names::action::Action;
use scope_names::custom::CustomRow;
use scope_names::table::{ScopeTable, TableError};
use std::alloc::Global;

fn is_declared(table: &ScopeTable, scope: &RawScope) -> bool
    ensures { result ≡ spec.scope_is_declared table.now scope.now }
{
    match scope {
        RawScope::Plain { action, .. } => action_is_declared(table, *action),
        RawScope::SelfScope | RawScope::Inherit => true,
    }
}

fn action_is_declared(table: &ScopeTable, action: Action) -> bool
    ensures { result ≡ spec.action_is_declared table.now action }
{
    match action {
        Action::Custom(name) => table.declares(name),
        _ => true,
    }
}

/// The first of these scopes that isn't declared.
fn scopes_fault(table: &ScopeTable, scopes: &[RawScope]) -> Option<Fault>
    ensures { result ≡ spec.scopes_fault table.now scopes.now }
{
    for (n, scope) in scopes.iter().enumerate() {
        if !is_declared(table, scope) {
            let fault = Fault::of(Rule::Undeclared);
            return Some(fault.in_entry(n).under(ConfigKey::Scopes));
        }
    }
    None
}

/// The first scope of these roles that isn't declared.
fn roles_fault(table: &ScopeTable, roles: &[Role]) -> Option<Fault>
    ensures { result ≡ spec.roles_fault table.now roles.now }
{
    for (n, role) in roles.iter().enumerate() {
        match scopes_fault(table, role.scopes.as_slice()) {
            Some(fault) => return Some(fault.in_entry(n).under(ConfigKey::Roles)),
            None => {}
        }
    }
    None
}

/// The first scope of these tokens that isn't declared.
fn tokens_fault(table: &ScopeTable, tokens: &[ConfigToken]) -> Option<Fault>
    ensures { result ≡ spec.tokens_fault table.now tokens.now }
{
    for (n, token) in tokens.iter().enumerate() {
        match scopes_fault(table, token.scopes.as_slice()) {
            Some(fault) => return Some(fault.in_entry(n).under(ConfigKey::Tokens)),
            None => {}
        }
    }
    None
}

/// The first custom scope of a role, or else of a token, that isn't declared.
pub(crate) fn undeclared(table: &ScopeTable, hub: &HubConfig) -> Option<Fault>
    ensures { result ≡ spec.undeclared table.now hub.now }
{
    match roles_fault(table, hub.roles.as_slice()) {
        Some(fault) => Some(fault),
        None => tokens_fault(table, hub.tokens.as_slice()),
    }
}

/// The table of these rows, if they make one.
pub(crate) fn table_of(alloc: Global, rows: &[CustomRow]) -> Result<Option<ScopeTable>, ConfigError>
    ensures some { IfOk result (λ made. IfSome made (λ table. (table ≡ rows.now) × MakeTable rows.now)) }
    ensures none { IfOk result (λ made. made ≡ None → ¬ (MakeTable rows.now)) }
    ensures err { IfErr result (λ e. e ≡ ConfigError.Memory) }
{
    match ScopeTable::new(alloc, rows) {
        Ok(table) => Ok(Some(table)),
        Err(error) => {
            if is_memory(error) {
                Err(ConfigError::Memory)
            } else {
                Ok(None)
            }
        }
    }
}

fn is_memory(error: TableError) -> bool
    ensures { result ≡ false → ¬ (error ≡ TableError.Memory) }
{
    matches!(error, TableError::Memory)
}
