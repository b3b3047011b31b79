//! Whether the owner of a token that is asked for may do all that it asks.
ghost use Rattle.std.specs.Prelude.{IfOk};
ghost use Rattle.hub_core.specs.Judged.{InsideOf, IsHeldBy};

use hub_machine::call::Call;
use hub_tables::tables::Tables;
use roles::grants::owner_grant;
use scope_filters::holder::Owner;
use scope_meet::inside::Inside;
use std::alloc::{AllocError, Global};
use token_store::issuing::{TokenAsk, within};

/// Whether the owner may do all that the call asks for a token. A call that makes none asks for nothing.
pub(crate) fn inside_of(alloc: Global, tables: &Tables, call: &Call) -> Result<Inside, AllocError>
    ensures { IfOk result (λ inside. InsideOf tables.now call.now inside) }
{
    match call {
        Call::PostToken { ask } => asked_inside(alloc, tables, ask),
        _ => Ok(Inside::Yes),
    }
}

/// Whether the owner of the token may do all that it asks; and where not, the first row that the owner doesn't hold whole.
fn asked_inside(alloc: Global, tables: &Tables, ask: &TokenAsk) -> Result<Inside, AllocError>
    ensures { IfOk result (λ inside. IsHeldBy tables.now ask.now inside) }
{
    let owner = Owner::User(ask.owner);
    let rights = owner_grant(alloc, tables, &owner)?;
    within(alloc, tables, &rights, &owner, ask.scopes.as_slice())
}
