//! The start of a server.
ghost use Rattle.std.specs.Prelude.{◌≡◌, ◌<◌, ◌-◌, ◌^◌, ◌∷◌, [], ◌++◌, codes, IfOk, OnOk};
ghost use Rattle.std.specs.FinMap as map;
ghost use Rattle.std.specs.Option.{option_copied};
ghost use Rattle.hub_kit.specs.Hashes.{hash_text};
ghost use Rattle.hub_rows.specs.declared.changes.RowChange.TheVariants.{Put};
ghost use Rattle.hub_tables.specs.Lookups.{next_of};
ghost use Rattle.hub_machine.specs.Answers.{answer_view};
ghost use Rattle.hub_machine.specs.Apply.{client_of};
ghost use Rattle.hub_machine.specs.Replies.{first_refusal};
ghost use Rattle.hub_machine.specs.State.{next_generation};
ghost use Rattle.hub_calls.specs.Starts as spec;

use hub_kit::hashes::{hash_of, token_text};
use hub_kit::list::List;
use hub_kit::moment::Moment;
use hub_kit::names::{ServerKey, UserName};
use hub_kit::target::Target;
use hub_kit::text::Text;
use hub_machine::answer::{Answer, gives};
use hub_machine::ends::client_of;
use hub_machine::machine::Machine;
use hub_machine::planned::Planned;
use hub_machine::refusal::{Refusal, worded};
use hub_machine::work::Work;
use hub_rows::changes::RowChange;
use hub_rows::client_id::ClientId;
use hub_rows::counter::Counter;
use hub_rows::records::{Lease, Next, OAuthClient, ServerRow, Token};
use hub_rows::rows::Row;
use hub_tables::tables::Tables;
use hub_view::{Body, server_url};
use scope_filters::holder::Owner;
use scope_filters::scope::{RawFilter, RawScope};
use scope_names::action::Action;
use server_life::{LifeEvent, LifeRefusal, Todo, life_step};
use std::alloc::{AllocError, Global};
use token_store::keeping::{is_text_kept, next_id};

/// How many clients of OAuth there may be.
const CLIENTS: usize = 2_000;

/// `POST /users/{user}/server` and `POST /users/{user}/servers/{server}`, for which 16 bytes were drawn.
pub fn post_server(
    alloc: Global,
    hub: &Machine,
    now: Moment,
    draw: Option<[u8; 16]>,
    server: &ServerKey,
) -> Result<Answer, AllocError>
    ensures { IfOk result (λ answer. answer_view answer ≡ spec.post_server hub.now now draw server.now) }
{
    match draw {
        Some(draw) => start_with(alloc, hub, now, draw, server),
        None => Ok(Answer::Refuses(Refusal::NoDraw)),
    }
}

fn start_with(
    alloc: Global,
    hub: &Machine,
    now: Moment,
    draw: [u8; 16],
    server: &ServerKey,
) -> Result<Answer, AllocError>
    ensures { IfOk result (λ answer. answer_view answer ≡ spec.start_with hub.now now draw server.now) }
{
    let life = hub.lives().life_of(server);
    match life_step(life, hub.next_generation(), LifeEvent::Begin) {
        Ok(_) => {
            let secret = token_text(alloc, draw)?;
            may_start(alloc, hub, now, &secret, server)
        }
        Err(LifeRefusal::PendingSpawn) => Ok(gives(202, Body::Nothing)),
        Err(LifeRefusal::Running) => Ok(Answer::Refuses(worded(alloc, "already running", "")?)),
        Err(_) => Ok(Answer::Refuses(worded(alloc, "pending stop", "")?)),
    }
}

/// The answer to a start that the life of the server allows.
fn may_start(
    alloc: Global,
    hub: &Machine,
    now: Moment,
    secret: &Text,
    server: &ServerKey,
) -> Result<Answer, AllocError>
    ensures { IfOk result (λ answer. answer_view answer ≡ spec.may_start hub.now now secret.now server.now) }
{
    if let Some(refusal) = refusal(alloc, hub.tables(), secret, server)? {
        return Ok(Answer::Refuses(refusal));
    }
    match hub.lives().free_target() {
        Some(target) => on_target(alloc, hub, now, secret, server, target),
        None => Ok(Answer::Refuses(Refusal::AllLeased {
            live: hub.lives().len(),
            pool: hub.pool().as_slice().len() as u64,
        })),
    }
}

/// The first rule that refuses the start.
fn refusal(
    alloc: Global,
    tables: &Tables,
    secret: &Text,
    server: &ServerKey,
) -> Result<Option<Refusal>, AllocError>
    ensures { IfOk result (λ r. r ≡ first_refusal (spec.start_rules tables.now secret.now server.now)) }
{
    if is_past_limit(alloc, tables, server)? {
        return Ok(Some(worded(alloc, "server limit", "")?));
    }
    if is_text_kept(alloc, tables, secret)? {
        return Ok(Some(Refusal::Exists(Text::from_str(alloc, "token")?)));
    }
    if is_without_token(alloc, tables)? {
        return Ok(Some(Refusal::Full {
            kind: 5,
            limit: tables.limits().tokens,
        }));
    }
    if is_without_client(alloc, tables, server)? {
        return Ok(Some(Refusal::Full {
            kind: 10,
            limit: CLIENTS as u32,
        }));
    }
    Ok(None)
}

/// Whether the server would be a named one past the limit of its user.
fn is_past_limit(alloc: Global, tables: &Tables, server: &ServerKey) -> Result<bool, AllocError>
    ensures { IfOk result (λ b. b ≡ spec.is_past_limit tables.now server.now) }
{
    if server.server.as_bytes().is_empty() || tables.server(server).is_some() {
        return Ok(false);
    }
    let named = named_servers(alloc, tables, &server.user)?;
    Ok(tables.limits().servers as usize <= named)
}

/// How many named servers a user has.
fn named_servers(alloc: Global, tables: &Tables, user: &UserName) -> Result<usize, AllocError>
    ensures { IfOk result (λ n. n ≡ spec.named_servers tables.now user.now) }
{
    let keys = tables.servers_of(alloc, user)?;
    Ok(named_among(keys.as_slice()))
}

/// How many of some servers have a name.
fn named_among(keys: &[ServerKey]) -> usize
    ensures { result ≡ spec.named_among keys.now }
{
    keys.iter()
        .filter(|key| !key.server.as_bytes().is_empty())
        .count()
}

/// Whether there is no room for a token more, or no number left for it.
fn is_without_token(alloc: Global, tables: &Tables) -> Result<bool, AllocError>
    ensures { IfOk result (λ b. b ≡ spec.is_without_token tables.now) }
{
    let next = next_id(alloc, tables)?;
    Ok(tables.limits().tokens as usize <= tables.count_of_tokens() || next == u64::MAX)
}

/// Whether there is no room for the client of a server.
fn is_without_client(alloc: Global, tables: &Tables, server: &ServerKey) -> Result<bool, AllocError>
    ensures { IfOk result (λ b. b ≡ spec.is_without_client tables.now server.now) }
{
    let client = client_of(alloc, server)?;
    Ok(tables.client(&client).is_none() && CLIENTS <= tables.count_of_clients())
}

/// The start of a server on this target.
fn on_target(
    alloc: Global,
    hub: &Machine,
    now: Moment,
    secret: &Text,
    server: &ServerKey,
    target: &Target,
) -> Result<Answer, AllocError>
    requires { next_of hub.now.tables (codes "token") < 2 ^ 64 - 1 }
    ensures { IfOk result (λ answer. answer_view answer ≡ spec.on_target hub.now now secret.now server.now (Some target.now)) }
{
    let generation = hub.next_generation();
    let work = Work {
        generation,
        server: *server,
        target: target.copy(alloc)?,
        todo: Todo::Start,
        secret: Some(secret.copy(alloc)?),
    };
    match begin_rows(alloc, hub.tables(), now, secret, server, target, generation) {
        Ok(rows) => Ok(Answer::Works {
            change: Planned::of_begin(generation, *server, rows),
            work,
        }),
        Err(error) => {
            drop(work);
            Err(error)
        }
    }
}

/// The rows of a start.
fn begin_rows(
    alloc: Global,
    tables: &Tables,
    now: Moment,
    secret: &Text,
    server: &ServerKey,
    target: &Target,
    generation: u64,
) -> Result<Vec<RowChange>, AllocError>
    requires room { next_of tables.now (codes "token") < 2 ^ 64 - 1 }
    requires generation { generation ≡ next_generation tables.now }
    requires below { generation < 2 ^ 63 }
    ensures { IfOk result (λ rows. rows.items ≡ spec.begin_rows tables.now now secret.now server.now target.now) }
{
    let mut rows = Vec::new(alloc);
    put_rows(
        alloc, &mut rows, tables, now, secret, server, target, generation,
    )
    .and(Ok(rows))
}

/// Fills the rows, of which there are none yet, with those of a start.
fn put_rows(
    alloc: Global,
    rows: &mut Vec<RowChange>,
    tables: &Tables,
    now: Moment,
    secret: &Text,
    server: &ServerKey,
    target: &Target,
    generation: u64,
) -> Result<(), AllocError>
    requires none { rows.old.items ≡ [] }
    requires room { next_of tables.now (codes "token") < 2 ^ 64 - 1 }
    requires generation { generation ≡ next_generation tables.now }
    requires below { generation < 2 ^ 63 }
    ensures { OnOk result (rows.new.items ≡ spec.begin_rows tables.now now secret.now server.now target.now) }
{
    let id = next_id(alloc, tables)?;
    put(
        rows,
        Row::Token(server_token(alloc, id, now, secret, server)?),
    )?;
    put(
        rows,
        Row::ServerRow(started(now, server, tables.server(server))),
    )?;
    put(rows, Row::Lease(lease(alloc, server, target, generation)?))?;
    put(rows, Row::OAuthClient(client(alloc, secret, server)?))?;
    let name = generations(alloc)?;
    let next = generation + 1;
    put(rows, Row::Next(Next { name, next }))?;
    let name = Counter::token(alloc)?;
    let next = id + 1;
    put(rows, Row::Next(Next { name, next }))
}

/// Adds the put of a row.
fn put(rows: &mut Vec<RowChange>, row: Row) -> Result<(), AllocError>
    ensures { OnOk result (rows.new.items ≡ rows.old.items ++ Put row ∷ []) }
{
    rows.push(RowChange::Put(row))?;
    Ok(())
}

/// The token that a server gets at its start: of its user, issued for it, and without end.
fn server_token(
    alloc: Global,
    id: u64,
    now: Moment,
    secret: &Text,
    server: &ServerKey,
) -> Result<Token, AllocError>
    ensures { IfOk result (λ token. token
        ≡ record {
          id = id;
          client = None;
          created = now;
          expires_at = None;
          hash = hash_text secret.now;
          issued_for = Some server.now;
          note = [];
          owner = Owner.User server.now.user;
          scopes = spec.server_scopes;
        }) }
{
    let activity = RawScope::Plain {
        action: Action::UsersActivity,
        filter: RawFilter::HolderUser,
    };
    let access = RawScope::Plain {
        action: Action::AccessServers,
        filter: RawFilter::HolderServer,
    };
    Ok(Token {
        id,
        client: None,
        created: now,
        expires_at: None,
        hash: hash_of(alloc, secret.as_bytes())?,
        issued_for: Some(*server),
        note: Text::new(alloc),
        owner: Owner::User(server.user),
        scopes: List::from_vec(Vec::from_slice(alloc, &[activity, access])?),
    })
}

/// The row of a server that was started now.
fn started(now: Moment, server: &ServerKey, kept: Option<&ServerRow>) -> ServerRow
    ensures { result ≡ spec.started now server.now (option_copied kept.entry) }
{
    match kept {
        Some(row) => ServerRow {
            started: Some(now),
            last_activity: None,
            ..*row
        },
        None => ServerRow {
            key: *server,
            created: now,
            last_activity: None,
            started: Some(now),
        },
    }
}

fn lease(
    alloc: Global,
    server: &ServerKey,
    target: &Target,
    generation: u64,
) -> Result<Lease, AllocError>
    ensures { IfOk result (λ lease. lease ≡ record { target = target.now; server = server.now; generation = Some generation }) }
{
    Ok(Lease {
        target: target.copy(alloc)?,
        server: *server,
        generation: Some(generation),
    })
}

/// The client of OAuth that the server is, with the secret of its token.
fn client(alloc: Global, secret: &Text, server: &ServerKey) -> Result<OAuthClient, AllocError>
    ensures { IfOk result (λ client. client
        ≡ record { id = client_of server.now; hash = hash_text secret.now; redirect_uri = spec.callback_of server.now }) }
{
    let mut redirect_uri = server_url(alloc, server)?;
    redirect_uri.push_str("oauth_callback")?;
    Ok(OAuthClient {
        id: ClientId::of_server(alloc, server)?,
        hash: hash_of(alloc, secret.as_bytes())?,
        redirect_uri,
    })
}

/// What numbers the starts.
fn generations(alloc: Global) -> Result<Counter, AllocError>
    ensures { IfOk result (λ counter. counter ≡ codes "generation") }
{
    match Counter::from_text(Text::from_str(alloc, "generation")?) {
        Some(counter) => Ok(counter),
        None => unreachable!(),
    }
}
