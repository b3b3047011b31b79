//! The rows of a configuration, put into tables.
ghost use Rattle.std.specs.Prelude.{◌≡◌, ℕ, Bool, fold, IfOk, OnOk};
ghost use Rattle.std.specs.FinMap.{contains_key};
ghost use Rattle.std.specs.List.{filter};
ghost use Rattle.std.specs.Option.{option_copied};
ghost use Rattle.hub_tables.specs.Hashes.{FitsToken};
ghost use Rattle.hub_tables.specs.State.{State};
ghost use Rattle.row_rules.specs.Across as across;
ghost use Rattle.hub_opening.specs.Changing.{Leads};
ghost use Rattle.hub_opening.specs.Opening as spec;

use crate::changed::Changed;
use crate::config::{ConfigService, ConfigToken, ConfigUser, HubConfig};
use hub_kit::hashes::hash_of;
use hub_kit::key::Key;
use hub_kit::list::List;
use hub_kit::moment::Moment;
use hub_kit::names::{GroupName, ServiceName, UserName};
use hub_kit::text::Text;
use hub_rows::client_id::ClientId;
use hub_rows::counter::Counter;
use hub_rows::records::{Group, Next, OAuthClient, Role, Service, Token, User};
use hub_rows::rows::Row;
use hub_tables::tables::Tables;
use keyed_rows::sorted::Sorted;
use scope_filters::holder::Owner;
use scope_filters::scope::RawScope;
use std::alloc::{AllocError, Global};

/// A row of a configuration.
trait Configured: Sized {
    /// The tables with it, which are opened at a moment.
    ghost put: { ℕ → State → Self → State };

    fn put(&self, alloc: Global, changed: &mut Changed, now: Moment) -> Result<(), AllocError>
        ensures tables { OnOk result (changed.new.tables ≡ put now changed.old.tables self.now) }
        ensures leads { OnOk result (Leads changed.old changed.new) };
}

impl Configured for ConfigUser {
    ghost put = { spec.with_user };

    fn put(&self, alloc: Global, changed: &mut Changed, now: Moment) -> Result<(), AllocError> {
        let row = user_row(changed.tables.user(&self.name), self, now);
        changed.put(alloc, Row::User(row))
    }
}

impl Configured for Group {
    ghost put = { λ now. spec.with_group };

    /// Puts it where none of its name is there, with those of its users that are.
    fn put(&self, alloc: Global, changed: &mut Changed, _: Moment) -> Result<(), AllocError> {
        if changed.tables.group(&self.name).is_some() {
            return Ok(());
        }
        let users = kept_names(alloc, &changed.tables, &self.users)?;
        let row = Group {
            name: self.name,
            users,
        };
        changed.put(alloc, Row::Group(row))
    }
}

impl Configured for ConfigService {
    ghost put = { λ now. spec.with_service };

    fn put(&self, alloc: Global, changed: &mut Changed, _: Moment) -> Result<(), AllocError> {
        add_service(alloc, changed, self.name)?;
        put_client(alloc, changed, client_of(alloc, self)?)
    }
}

impl Configured for Role {
    ghost put = { λ now. spec.with_role };

    /// Puts it in place of the one of its name, with those of its holders that are there.
    fn put(&self, alloc: Global, changed: &mut Changed, _: Moment) -> Result<(), AllocError> {
        let row = role_row(alloc, &changed.tables, self)?;
        changed.put(alloc, Row::Role(row))
    }
}

impl Configured for ConfigToken {
    ghost put = { spec.with_token };

    fn put(&self, alloc: Global, changed: &mut Changed, now: Moment) -> Result<(), AllocError> {
        let name = Counter::token(alloc)?;
        let hash = hash_of(alloc, self.text.as_bytes())?;
        let id = changed.next_of(name.as_text());
        if !changed.tables.token_is_new(id, &hash) || !has_owner(&changed.tables, &self.owner) {
            return Ok(());
        }
        let Some(next) = id.checked_add(1) else {
            return Err(AllocError);
        };
        let row = token_row(alloc, id, now, hash, self)?;
        add_token(alloc, changed, row, Next { name, next })
    }
}

/// Puts rows of one kind, in order.
fn put_all<C: Configured>(
    alloc: Global,
    changed: &mut Changed,
    rows: &[C],
    now: Moment,
) -> Result<(), AllocError>
    ensures tables { OnOk result (changed.new.tables ≡ fold (C.put now) changed.old.tables rows.now) }
    ensures leads { OnOk result (Leads changed.old changed.new) }
{
    for row in rows {
        row.put(alloc, changed, now)?;
    }
    Ok(())
}

/// A name whose row may be there.
trait Named: Key + Copy {
    /// Whether it is, in these tables.
    ghost is_in: { State → Self → Bool };

    fn is_there(&self, tables: &Tables) -> bool
        ensures { result ≡ is_in tables.now self.now };
}

impl Named for UserName {
    ghost is_in = { λ tables name. contains_key tables.users name };

    fn is_there(&self, tables: &Tables) -> bool {
        tables.user(self).is_some()
    }
}

impl Named for GroupName {
    ghost is_in = { λ tables name. contains_key tables.groups name };

    fn is_there(&self, tables: &Tables) -> bool {
        tables.group(self).is_some()
    }
}

impl Named for ServiceName {
    ghost is_in = { λ tables name. contains_key tables.services name };

    fn is_there(&self, tables: &Tables) -> bool {
        tables.service(self).is_some()
    }
}

/// Those of these names whose rows are there.
fn kept_names<N: Named>(
    alloc: Global,
    tables: &Tables,
    names: &Sorted<N>,
) -> Result<Sorted<N>, AllocError>
    ensures { IfOk result (λ kept. kept ≡ filter (N.is_in tables.now) names.now) }
{
    let mut kept = Vec::new(alloc);
    for name in names.as_slice() {
        if name.is_there(tables) {
            kept.push(*name)?;
        }
    }
    Ok(Sorted::from_vec(kept))
}

/// The row of a configured role: it names those of its holders that are there.
fn role_row(alloc: Global, tables: &Tables, role: &Role) -> Result<Role, AllocError>
    ensures { IfOk result (λ row. row ≡ spec.role_row tables.now role.now) }
{
    Ok(Role {
        name: role.name,
        groups: kept_names(alloc, tables, &role.groups)?,
        scopes: copy_scopes(alloc, &role.scopes)?,
        services: kept_names(alloc, tables, &role.services)?,
        users: kept_names(alloc, tables, &role.users)?,
    })
}

/// The row of a configured user, in place of the kept one, if there is one.
fn user_row(kept: Option<&User>, user: &ConfigUser, now: Moment) -> User
    ensures { result ≡ spec.user_row now user.now (option_copied kept.entry) }
{
    match kept {
        Some(kept) => User {
            name: user.name,
            admin: kept.admin || user.admin,
            created: kept.created,
            last_activity: kept.last_activity,
        },
        None => User {
            name: user.name,
            admin: user.admin,
            created: now,
            last_activity: None,
        },
    }
}

/// Puts the row of a service, where none of its name is there.
fn add_service(alloc: Global, changed: &mut Changed, name: ServiceName) -> Result<(), AllocError>
    ensures tables { OnOk result (changed.new.tables ≡ record changed.old.tables
        { services = spec.put_new name (record { name = name }) changed.old.tables.services }) }
    ensures leads { OnOk result (Leads changed.old changed.new) }
{
    if changed.tables.service(&name).is_some() {
        return Ok(());
    }
    changed.put(alloc, Row::Service(Service { name }))
}

/// The client of OAuth that a configured service is.
fn client_of(alloc: Global, service: &ConfigService) -> Result<Option<OAuthClient>, AllocError>
    ensures { IfOk result (λ client. client ≡ spec.client_of service.now) }
{
    let Some(uri) = &service.redirect_uri else {
        return Ok(None);
    };
    let Some(secret) = &service.secret else {
        return Ok(None);
    };
    Ok(Some(OAuthClient {
        id: ClientId::of_service(alloc, &service.name)?,
        hash: hash_of(alloc, secret.as_bytes())?,
        redirect_uri: uri.copy(alloc)?,
    }))
}

/// Puts a client, if there is one, in place of the one of its id.
fn put_client(
    alloc: Global,
    changed: &mut Changed,
    client: Option<OAuthClient>,
) -> Result<(), AllocError>
    ensures tables { OnOk result (changed.new.tables ≡ record changed.old.tables
        { clients = spec.with_client client changed.old.tables.clients }) }
    ensures leads { OnOk result (Leads changed.old changed.new) }
{
    match client {
        Some(client) => changed.put(alloc, Row::OAuthClient(client)),
        None => Ok(()),
    }
}

fn has_owner(tables: &Tables, owner: &Owner) -> bool
    ensures { result ≡ across.has_owner tables.now owner.now }
{
    match owner {
        Owner::User(user) => user.is_there(tables),
        Owner::Service(service) => service.is_there(tables),
    }
}

fn copy_scopes(alloc: Global, scopes: &List<RawScope>) -> Result<List<RawScope>, AllocError>
    ensures { IfOk result (λ copy. copy ≡ scopes.now) }
{
    let copy = Vec::from_slice(alloc, scopes.as_slice())?;
    Ok(List::from_vec(copy))
}

/// The row of a configured token, under a number.
fn token_row(
    alloc: Global,
    id: u64,
    now: Moment,
    hash: Text,
    token: &ConfigToken,
) -> Result<Token, AllocError>
    ensures { IfOk result (λ row. row ≡ spec.row_of_hash id now hash token.now) }
{
    let scopes = copy_scopes(alloc, &token.scopes)?;
    Ok(Token {
        id,
        client: None,
        created: now,
        expires_at: None,
        hash,
        issued_for: None,
        note: Text::new(alloc),
        owner: token.owner,
        scopes,
    })
}

/// Adds a token whose number, hash and owner were found to fit.
fn add_token(
    alloc: Global,
    changed: &mut Changed,
    token: Token,
    next: Next,
) -> Result<(), AllocError>
    requires { FitsToken changed.old.tables.tokens token }
    ensures tables { OnOk result (changed.new.tables ≡ spec.both_put token next changed.old.tables) }
    ensures leads { OnOk result (Leads changed.old changed.new) }
{
    changed.put(alloc, Row::Token(token))?;
    changed.put(alloc, Row::Next(next))
}

/// Puts the rows of the configuration.
pub(crate) fn put_rows(
    alloc: Global,
    changed: &mut Changed,
    config: &HubConfig,
    now: Moment,
) -> Result<(), AllocError>
    ensures tables { OnOk result (changed.new.tables ≡ spec.configured config.now now changed.old.tables) }
    ensures leads { OnOk result (Leads changed.old changed.new) }
{
    put_all(alloc, changed, config.users.as_slice(), now)?;
    put_all(alloc, changed, config.groups.as_slice(), now)?;
    put_all(alloc, changed, config.services.as_slice(), now)?;
    put_all(alloc, changed, config.roles.as_slice(), now)?;
    put_all(alloc, changed, config.tokens.as_slice(), now)
}
