//! The rows of the hub's tables: twelve records, the key of each, the limits of their numbers, and the changes of rows.
//! A `Share` has its scopes in the order of their texts. An `OAuthClient` is called by a server or a service, and a `Next` by a counter.
//! Types of their own keep these, and contracts see what is in them.
//! A change puts a `Row` or removes the one of a `RowKey`, each of some kind.
//! `Keyed` of `keyed_rows` carries it: each record stands under a key of its own, and each can be copied. `Hashed` and `HasMembers` of
//! `row_indexes` say by what else a record is found.
//! The tables of `hub_tables` hold these rows, and the keeper writes and reads them.
#![tactic(auto)]

pub mod changes;
pub mod client_id;
pub mod counter;
mod indexed;
pub mod keys;
pub mod kinds;
pub mod limits;
pub mod records;
mod row_keys;
pub mod rows;
pub mod shared_scopes;
