//! Whether a row stands on the tables of all rows: what it names is kept, and its numbers were given out.
ghost use Rattle.std.specs.Prelude.{◌≡◌, ◌||◌, IfOk, OnOk};
ghost use Rattle.std.specs.Option.{option_copied};
ghost use Rattle.hub_kit.specs.declared.names.ServerKey.{ServerKey};
ghost use Rattle.hub_tables.specs.Lookups as lookups;
ghost use Rattle.row_rules.specs.Across as spec;
ghost use Rattle.row_rules.specs.Judged.{is_in, IsLedger};

use crate::seen::started_by;
use hub_kit::names::{ServerKey, ServerName};
use hub_kit::text::Text;
use hub_rows::keys::Recipient;
use hub_rows::records::{Lease, Next, Role, Share, ShareCode, Token};
use hub_rows::rows::Row;
use hub_tables::tables::Tables;
use keyed_rows::{insert_row, row_at};
use scope_filters::holder::Owner;
use std::alloc::{AllocError, Global};
use std::collections::BTreeMap;
use std::collections::btree_map::Values;

/// What is asked of the tables again and again: the next numbers, and the servers of leases.
pub(crate) struct Ledger {
    code: u64,
    generation: u64,
    token: u64,
    leased: BTreeMap<ServerKey, ()>,
}

impl Drop for Ledger {
    fn drop(self) {
        let Ledger {
            code: _,
            generation: _,
            token: _,
            leased: _,
        } = self;
    }
}

impl Ledger {
    pub(crate) fn of(alloc: Global, tables: &Tables) -> Result<Ledger, AllocError>
        ensures { IfOk result (λ ledger. IsLedger tables.now ledger) }
    {
        let code = next_of(alloc, tables, "code")?;
        let generation = next_of(alloc, tables, "generation")?;
        let token = next_of(alloc, tables, "token")?;
        let leased = leased_in(alloc, tables)?;
        Ok(Ledger {
            code,
            generation,
            token,
            leased,
        })
    }
}

fn next_of(alloc: Global, tables: &Tables, kind: &str) -> Result<u64, AllocError>
    ensures { IfOk result (λ next. next ≡ lookups.next_of tables.now kind.now) }
{
    let name = Text::from_str(alloc, kind)?;
    Ok(number_of(tables.next_of(&name)))
}

fn number_of(next: Option<&Next>) -> u64
    ensures { result ≡ lookups.number_of (option_copied next.entry) }
{
    match next {
        Some(row) => row.next,
        None => 1,
    }
}

fn leased_in(alloc: Global, tables: &Tables) -> Result<BTreeMap<ServerKey, ()>, AllocError>
    ensures { IfOk result (λ leased. (server : ServerKey) → is_in leased server ≡ spec.is_leased tables.now server) }
{
    let mut leased = BTreeMap::new(alloc);
    add_servers(&mut leased, tables.leases())?;
    Ok(leased)
}

fn add_servers<K>(
    leased: &mut BTreeMap<ServerKey, ()>,
    leases: Values<'_, K, Lease>,
) -> Result<(), AllocError>
    ensures { OnOk result ((server : ServerKey)
        → is_in leased.new server ≡ (is_in leased.old server || spec.is_leased_by leases.entry server)) }
{
    for lease in leases {
        insert_row(leased, lease.server, ())?;
    }
    Ok(())
}

// ---- what is kept

fn has_owner(tables: &Tables, owner: &Owner) -> bool
    ensures { result ≡ spec.has_owner tables.now owner.now }
{
    match owner {
        Owner::User(user) => tables.user(user).is_some(),
        Owner::Service(service) => tables.service(service).is_some(),
    }
}

fn has_recipient(tables: &Tables, to: &Recipient) -> bool
    ensures { result ≡ spec.has_recipient tables.now to.now }
{
    match to {
        Recipient::User(user) => tables.user(user).is_some(),
        Recipient::Group(group) => tables.group(group).is_some(),
    }
}

fn has_server(tables: &Tables, key: &ServerKey) -> bool
    ensures { result ≡ lookups.has_server tables.now key.now }
{
    tables.user(&key.user).is_some() && (is_default(&key.server) || tables.server(key).is_some())
}

fn is_default(server: &ServerName) -> bool
    ensures { result ≡ lookups.is_default server.now }
{
    matches!(server.as_bytes(), [])
}

/// A number from 1 that is below the next of its kind.
fn is_given_out(number: u64, next: u64) -> bool
    ensures { result ≡ spec.is_given_out number next }
{
    0 < number && number < next
}

fn is_given_or_none(number: Option<u64>, next: u64) -> bool
    ensures { result ≡ spec.is_given_or_none number next }
{
    match number {
        Some(number) => is_given_out(number, next),
        None => true,
    }
}

fn is_leased_or_none(tables: &Tables, ledger: &Ledger, server: Option<ServerKey>) -> bool
    requires { IsLedger tables.now ledger.now }
    ensures { result ≡ spec.is_leased_or_none tables.now server }
{
    match server {
        Some(server) => row_at(&ledger.leased, &server).is_some(),
        None => true,
    }
}

// ---- the rules

fn role_stands(role: &Role) -> bool
    ensures { result ≡ spec.role_stands role.now }
{
    !(role.name.as_str() == "user" || role.name.as_str() == "admin")
}

fn token_stands(tables: &Tables, ledger: &Ledger, token: &Token) -> bool
    requires { IsLedger tables.now ledger.now }
    ensures { result ≡ spec.token_stands tables.now token.now }
{
    is_given_out(token.id, ledger.token)
        && has_owner(tables, &token.owner)
        && is_leased_or_none(tables, ledger, started_by(&token.client, token.issued_for))
}

fn lease_stands(tables: &Tables, ledger: &Ledger, lease: &Lease) -> bool
    requires { IsLedger tables.now ledger.now }
    ensures { result ≡ spec.lease_stands tables.now lease.now }
{
    tables.server(&lease.server).is_some() && is_given_or_none(lease.generation, ledger.generation)
}

fn share_stands(tables: &Tables, share: &Share) -> bool
    ensures { result ≡ spec.share_stands tables.now share.now }
{
    has_server(tables, &share.key.server) && has_recipient(tables, &share.key.to)
}

fn code_stands(tables: &Tables, ledger: &Ledger, code: &ShareCode) -> bool
    requires { IsLedger tables.now ledger.now }
    ensures { result ≡ spec.code_stands tables.now code.now }
{
    is_given_out(code.id, ledger.code) && has_server(tables, &code.server)
}

/// Whether a row stands on these tables.
pub(crate) fn stands(tables: &Tables, ledger: &Ledger, row: &Row) -> bool
    requires { IsLedger tables.now ledger.now }
    ensures { result ≡ spec.stands tables.now row.now }
{
    match row {
        Row::Role(role) => role_stands(role),
        Row::Token(token) => token_stands(tables, ledger, token),
        Row::ServerRow(server) => tables.user(&server.key.user).is_some(),
        Row::Lease(lease) => lease_stands(tables, ledger, lease),
        Row::Share(share) => share_stands(tables, share),
        Row::ShareCode(code) => code_stands(tables, ledger, code),
        Row::OAuthCode(code) => tables.user(&code.owner).is_some(),
        Row::Next(next) => 0 < next.next && next.next <= 2_305_843_009_213_693_952,
        _ => true,
    }
}
