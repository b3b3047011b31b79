//! What a scope lets its holder do: the actions of the table, and those that a deployment adds.
ghost use Rattle.std.specs.Prelude.{◌≡◌, Some, refl, IsTrue, ◌↔◌};
ghost use Rattle.std.specs.Cmp.{eq_by_cmp_equiv, partial_equiv_from_equiv, partial_order_from_total};
ghost use Rattle.hub_kit.specs.KeyOrder.{name_cmp};
ghost use Rattle.scope_names.specs.declared.action.Action.{Action};
ghost use Rattle.scope_names.specs.Actions.{place_of, name_of, text_of, action_read, first_with, is_action, listed};
ghost use Rattle.scope_names.specs.ActionOrder.{action_cmp, same_action, actions_exact, actions_total};

use crate::custom::{CustomName, read_custom};
use hub_kit::key::Key;
use std::cmp::Ordering;

/// An action, ordered by the bytes of the texts.
#[derive(Clone, Copy)]
pub enum Action {
    AccessServers,
    AccessServices,
    AdminUi,
    AdminAuthState,
    AdminGroups,
    AdminRoles,
    AdminServerState,
    AdminServers,
    AdminServices,
    AdminUsers,
    Custom(CustomName),
    DeleteGroups,
    DeleteServers,
    DeleteUsers,
    Groups,
    GroupsShares,
    ListGroups,
    ListServices,
    ListUsers,
    Proxy,
    ReadGroups,
    ReadGroupsName,
    ReadGroupsShares,
    ReadHub,
    ReadMetrics,
    ReadRoles,
    ReadRolesGroups,
    ReadRolesServices,
    ReadRolesUsers,
    ReadServers,
    ReadServices,
    ReadServicesName,
    ReadShares,
    ReadTokens,
    ReadUsers,
    ReadUsersActivity,
    ReadUsersGroups,
    ReadUsersName,
    ReadUsersShares,
    Servers,
    Shares,
    Shutdown,
    Tokens,
    Users,
    UsersActivity,
    UsersShares,
}

impl Action {
    /// The place of the action in the table. All custom actions have one.
    fn place(&self) -> u8
        ensures { result ≡ place_of self.now }
    {
        match self {
            Action::AccessServers => 0,
            Action::AccessServices => 1,
            Action::AdminUi => 2,
            Action::AdminAuthState => 3,
            Action::AdminGroups => 4,
            Action::AdminRoles => 5,
            Action::AdminServerState => 6,
            Action::AdminServers => 7,
            Action::AdminServices => 8,
            Action::AdminUsers => 9,
            Action::Custom(_) => 10,
            Action::DeleteGroups => 11,
            Action::DeleteServers => 12,
            Action::DeleteUsers => 13,
            Action::Groups => 14,
            Action::GroupsShares => 15,
            Action::ListGroups => 16,
            Action::ListServices => 17,
            Action::ListUsers => 18,
            Action::Proxy => 19,
            Action::ReadGroups => 20,
            Action::ReadGroupsName => 21,
            Action::ReadGroupsShares => 22,
            Action::ReadHub => 23,
            Action::ReadMetrics => 24,
            Action::ReadRoles => 25,
            Action::ReadRolesGroups => 26,
            Action::ReadRolesServices => 27,
            Action::ReadRolesUsers => 28,
            Action::ReadServers => 29,
            Action::ReadServices => 30,
            Action::ReadServicesName => 31,
            Action::ReadShares => 32,
            Action::ReadTokens => 33,
            Action::ReadUsers => 34,
            Action::ReadUsersActivity => 35,
            Action::ReadUsersGroups => 36,
            Action::ReadUsersName => 37,
            Action::ReadUsersShares => 38,
            Action::Servers => 39,
            Action::Shares => 40,
            Action::Shutdown => 41,
            Action::Tokens => 42,
            Action::Users => 43,
            Action::UsersActivity => 44,
            Action::UsersShares => 45,
        }
    }

    /// The name of a custom action, and nothing of the others.
    fn name(&self) -> &[u8]
        ensures { result.now ≡ name_of self.now }
    {
        match self {
            Action::Custom(name) => name.as_bytes(),
            _ => &[],
        }
    }
}

/// The text of an action.
pub fn action_text(action: &Action) -> &str
    ensures text { result.now ≡ text_of action.now }
    ensures action { IsTrue (is_action action.now) }
{
    match action {
        Action::AccessServers => "access:servers",
        Action::AccessServices => "access:services",
        Action::AdminUi => "admin-ui",
        Action::AdminAuthState => "admin:auth_state",
        Action::AdminGroups => "admin:groups",
        Action::AdminRoles => "admin:roles",
        Action::AdminServerState => "admin:server_state",
        Action::AdminServers => "admin:servers",
        Action::AdminServices => "admin:services",
        Action::AdminUsers => "admin:users",
        Action::Custom(name) => name.as_str(),
        Action::DeleteGroups => "delete:groups",
        Action::DeleteServers => "delete:servers",
        Action::DeleteUsers => "delete:users",
        Action::Groups => "groups",
        Action::GroupsShares => "groups:shares",
        Action::ListGroups => "list:groups",
        Action::ListServices => "list:services",
        Action::ListUsers => "list:users",
        Action::Proxy => "proxy",
        Action::ReadGroups => "read:groups",
        Action::ReadGroupsName => "read:groups:name",
        Action::ReadGroupsShares => "read:groups:shares",
        Action::ReadHub => "read:hub",
        Action::ReadMetrics => "read:metrics",
        Action::ReadRoles => "read:roles",
        Action::ReadRolesGroups => "read:roles:groups",
        Action::ReadRolesServices => "read:roles:services",
        Action::ReadRolesUsers => "read:roles:users",
        Action::ReadServers => "read:servers",
        Action::ReadServices => "read:services",
        Action::ReadServicesName => "read:services:name",
        Action::ReadShares => "read:shares",
        Action::ReadTokens => "read:tokens",
        Action::ReadUsers => "read:users",
        Action::ReadUsersActivity => "read:users:activity",
        Action::ReadUsersGroups => "read:users:groups",
        Action::ReadUsersName => "read:users:name",
        Action::ReadUsersShares => "read:users:shares",
        Action::Servers => "servers",
        Action::Shares => "shares",
        Action::Shutdown => "shutdown",
        Action::Tokens => "tokens",
        Action::Users => "users",
        Action::UsersActivity => "users:activity",
        Action::UsersShares => "users:shares",
    }
}

impl PartialEq for Action {
    ghost eq = { same_action };

    ghost laws = { partial_equiv_from_equiv (eq_by_cmp_equiv actions_total) };

    fn eq(&self, other: &Self) -> bool {
        self.cmp(other) == Ordering::Equal
    }
}

impl Eq for Action {
    ghost laws = { eq_by_cmp_equiv actions_total };
}

impl PartialOrd for Action {
    ghost partial_cmp = { λ a b. Some (action_cmp a b) };

    ghost laws = { partial_order_from_total actions_total };

    fn partial_cmp(&self, other: &Self) -> Option<Ordering> {
        Some(self.cmp(other))
    }
}

impl Ord for Action {
    ghost cmp = { action_cmp };

    ghost total = { actions_total };

    ghost matches_partial_cmp = { λ a b. refl };

    ghost matches_eq = { λ a b. refl };

    fn cmp(&self, other: &Self) -> Ordering {
        match self.place().cmp(&other.place()) {
            Ordering::Equal => self.name().cmp(other.name()),
            unequal => unequal,
        }
    }
}

impl Key for Action {
    ghost exact = { actions_exact };
}

/// Reads an action, and answers `None` where the text is none. It reads an action from its text, and from no other.
pub fn read_action(text: &str) -> Option<Action>
    ensures value { result ≡ action_read text.now }
    ensures inverse { (a : Action) → IsTrue (is_action a) → (result ≡ Some a) ↔ (text_of a ≡ text.now) }
{
    read_any(text)
}

fn read_any(text: &str) -> Option<Action>
    ensures { result ≡ action_read text.now }
{
    match find_text(&listed(), text) {
        Some(action) => Some(action),
        None => match read_custom(text) {
            Some(name) => Some(Action::Custom(name)),
            None => None,
        },
    }
}

/// The order of the actions is that of the bytes of their texts.
pub fn actions_stand_in_order_of_texts()
    ensures { (a b : Action) → IsTrue (is_action a) → IsTrue (is_action b) → action_cmp a b ≡ name_cmp (text_of a) (text_of b) }
{}

/// The first of the actions that has the text.
fn find_text(actions: &[Action], text: &str) -> Option<Action>
    ensures { result ≡ first_with text.now actions.now }
{
    actions
        .iter()
        .copied()
        .find(|action| action_text(action) == text)
}

/// The actions of the table, in order.
#[tactic(auto, unfolding(crate::specs::Actions::listed))]
pub(crate) fn listed() -> [Action; 45]
    ensures { result ≡ listed }
{
    [
        Action::AccessServers,
        Action::AccessServices,
        Action::AdminUi,
        Action::AdminAuthState,
        Action::AdminGroups,
        Action::AdminRoles,
        Action::AdminServerState,
        Action::AdminServers,
        Action::AdminServices,
        Action::AdminUsers,
        Action::DeleteGroups,
        Action::DeleteServers,
        Action::DeleteUsers,
        Action::Groups,
        Action::GroupsShares,
        Action::ListGroups,
        Action::ListServices,
        Action::ListUsers,
        Action::Proxy,
        Action::ReadGroups,
        Action::ReadGroupsName,
        Action::ReadGroupsShares,
        Action::ReadHub,
        Action::ReadMetrics,
        Action::ReadRoles,
        Action::ReadRolesGroups,
        Action::ReadRolesServices,
        Action::ReadRolesUsers,
        Action::ReadServers,
        Action::ReadServices,
        Action::ReadServicesName,
        Action::ReadShares,
        Action::ReadTokens,
        Action::ReadUsers,
        Action::ReadUsersActivity,
        Action::ReadUsersGroups,
        Action::ReadUsersName,
        Action::ReadUsersShares,
        Action::Servers,
        Action::Shares,
        Action::Shutdown,
        Action::Tokens,
        Action::Users,
        Action::UsersActivity,
        Action::UsersShares,
    ]
}
