//! Rows, read one by one.
ghost use Rattle.std.specs.Prelude.{◌≡◌, false, Err};
ghost use Rattle.kept_rows.specs.Reading as spec;

use hub_kit::list::List;
use hub_rows::records::{
    Group, Lease, Next, OAuthClient, OAuthCode, Role, ServerRow, Service, Share, ShareCode, Token,
    User,
};
use hub_rows::rows::Row;
use keeper::keeper::Row as KeptRow;
use record_texts::known_form::{server_of, token_of, user_of};
use record_texts::record::{RowError, of_row};
use std::alloc::Global;

/// All rows, in their order, or the kind and the key of the first that doesn't read. The kept rows are let go at the end, all at once:
/// between what is made of them each would leave a hole, and the heap would look through these.
pub fn read_rows(alloc: Global, kept: Vec<KeptRow>) -> Result<List<Row>, RowError>
    ensures { spec.AreReading kept.items result }
{
    let Ok(mut rows) = Vec::with_capacity(alloc, kept.len()) else {
        return Err(RowError::Memory);
    };
    for one in kept.as_slice() {
        let row = match read_row(alloc, one) {
            Ok(row) => row,
            Err(error) => return Err(error),
        };
        let Ok(()) = rows.push(row) else {
            return Err(RowError::Memory);
        };
    }
    Ok(List::from_vec(rows))
}

/// The row that is kept so. The kinds are numbered from 1.
pub fn read_row(alloc: Global, kept: &KeptRow) -> Result<Row, RowError>
    ensures { spec.IsReading kept.now result }
{
    match kept.kind {
        1 => read_user(alloc, kept),
        2 => read_group(alloc, kept),
        3 => read_service(alloc, kept),
        4 => read_role(alloc, kept),
        5 => read_token(alloc, kept),
        6 => read_server(alloc, kept),
        7 => read_lease(alloc, kept),
        8 => read_share(alloc, kept),
        9 => read_code(alloc, kept),
        10 => read_client(alloc, kept),
        11 => read_grant_code(alloc, kept),
        12 => read_next(alloc, kept),
        _ => Err(of_no_kind(alloc, kept)),
    }
}

fn read_user(alloc: Global, kept: &KeptRow) -> Result<Row, RowError>
    requires { kept.now.kind ≡ 1 }
    ensures { spec.IsReading kept.now result }
{
    if let Some(user) = user_of(kept) {
        return Ok(Row::User(user));
    }
    match of_row::<User>(alloc, kept) {
        Ok(user) => Ok(Row::User(user)),
        Err(error) => Err(error),
    }
}

fn read_group(alloc: Global, kept: &KeptRow) -> Result<Row, RowError>
    requires { kept.now.kind ≡ 2 }
    ensures { spec.IsReading kept.now result }
{
    match of_row::<Group>(alloc, kept) {
        Ok(group) => Ok(Row::Group(group)),
        Err(error) => Err(error),
    }
}

fn read_service(alloc: Global, kept: &KeptRow) -> Result<Row, RowError>
    requires { kept.now.kind ≡ 3 }
    ensures { spec.IsReading kept.now result }
{
    match of_row::<Service>(alloc, kept) {
        Ok(service) => Ok(Row::Service(service)),
        Err(error) => Err(error),
    }
}

fn read_role(alloc: Global, kept: &KeptRow) -> Result<Row, RowError>
    requires { kept.now.kind ≡ 4 }
    ensures { spec.IsReading kept.now result }
{
    match of_row::<Role>(alloc, kept) {
        Ok(role) => Ok(Row::Role(role)),
        Err(error) => Err(error),
    }
}

fn read_token(alloc: Global, kept: &KeptRow) -> Result<Row, RowError>
    requires { kept.now.kind ≡ 5 }
    ensures { spec.IsReading kept.now result }
{
    if let Some(token) = token_of(alloc, kept) {
        return Ok(Row::Token(token));
    }
    match of_row::<Token>(alloc, kept) {
        Ok(token) => Ok(Row::Token(token)),
        Err(error) => Err(error),
    }
}

fn read_server(alloc: Global, kept: &KeptRow) -> Result<Row, RowError>
    requires { kept.now.kind ≡ 6 }
    ensures { spec.IsReading kept.now result }
{
    if let Some(server) = server_of(kept) {
        return Ok(Row::ServerRow(server));
    }
    match of_row::<ServerRow>(alloc, kept) {
        Ok(server) => Ok(Row::ServerRow(server)),
        Err(error) => Err(error),
    }
}

fn read_lease(alloc: Global, kept: &KeptRow) -> Result<Row, RowError>
    requires { kept.now.kind ≡ 7 }
    ensures { spec.IsReading kept.now result }
{
    match of_row::<Lease>(alloc, kept) {
        Ok(lease) => Ok(Row::Lease(lease)),
        Err(error) => Err(error),
    }
}

fn read_share(alloc: Global, kept: &KeptRow) -> Result<Row, RowError>
    requires { kept.now.kind ≡ 8 }
    ensures { spec.IsReading kept.now result }
{
    match of_row::<Share>(alloc, kept) {
        Ok(share) => Ok(Row::Share(share)),
        Err(error) => Err(error),
    }
}

fn read_code(alloc: Global, kept: &KeptRow) -> Result<Row, RowError>
    requires { kept.now.kind ≡ 9 }
    ensures { spec.IsReading kept.now result }
{
    match of_row::<ShareCode>(alloc, kept) {
        Ok(code) => Ok(Row::ShareCode(code)),
        Err(error) => Err(error),
    }
}

fn read_client(alloc: Global, kept: &KeptRow) -> Result<Row, RowError>
    requires { kept.now.kind ≡ 10 }
    ensures { spec.IsReading kept.now result }
{
    match of_row::<OAuthClient>(alloc, kept) {
        Ok(client) => Ok(Row::OAuthClient(client)),
        Err(error) => Err(error),
    }
}

fn read_grant_code(alloc: Global, kept: &KeptRow) -> Result<Row, RowError>
    requires { kept.now.kind ≡ 11 }
    ensures { spec.IsReading kept.now result }
{
    match of_row::<OAuthCode>(alloc, kept) {
        Ok(code) => Ok(Row::OAuthCode(code)),
        Err(error) => Err(error),
    }
}

fn read_next(alloc: Global, kept: &KeptRow) -> Result<Row, RowError>
    requires { kept.now.kind ≡ 12 }
    ensures { spec.IsReading kept.now result }
{
    match of_row::<Next>(alloc, kept) {
        Ok(next) => Ok(Row::Next(next)),
        Err(error) => Err(error),
    }
}

/// The error of a row whose number is that of no kind.
fn of_no_kind(alloc: Global, kept: &KeptRow) -> RowError
    requires { spec.is_kind kept.now.kind ≡ false }
    ensures { spec.IsReading kept.now (Err result) }
{
    match kept.key.copy(alloc) {
        Ok(key) => RowError::BadRow {
            kind: kept.kind,
            key,
        },
        Err(_) => RowError::Memory,
    }
}
