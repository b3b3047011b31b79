//! The items of a batch.
ghost use Rattle.std.specs.Prelude.{◌≡◌, IfOk, OnOk};
ghost use Rattle.hub_rows.specs.RowKeys.{key_of};
ghost use Rattle.keeper.specs.declared.keeper.Item.TheVariants as Item;
ghost use Rattle.record_texts.specs.Items as spec;
ghost use Rattle.record_texts.specs.Rows.{row_with};

use crate::record::{Record, row_of};
use hub_rows::changes::RowChange;
use hub_rows::rows::{Row, RowKey};
use keeper::keeper::Item;
use key_texts::textual::Textual;
use std::alloc::{AllocError, Global};

/// The item of a change: the row of the record that is put, or the kind and the key of one that goes.
pub fn item_of(alloc: Global, change: &RowChange) -> Result<Item, AllocError>
    ensures item { IfOk result (λ item. item ≡ spec.item_of change.now) }
    ensures valid { OnOk result (spec.IsValid change.now) }
{
    match change {
        RowChange::Put(row) => put_of(alloc, row),
        RowChange::Remove(key) => delete_of(alloc, key),
    }
}

/// The item that puts a row.
fn put_of(alloc: Global, row: &Row) -> Result<Item, AllocError>
    ensures item { IfOk result (λ item. item ≡ Item.Put
        (row_with (spec.kind_of (key_of row.now)) (spec.key_text (key_of row.now)) (spec.object_of row.now))) }
    ensures valid { OnOk result (spec.IsRow row.now) }
{
    match row {
        Row::User(user) => put(alloc, user),
        Row::Group(group) => put(alloc, group),
        Row::Service(service) => put(alloc, service),
        Row::Role(role) => put(alloc, role),
        Row::Token(token) => put(alloc, token),
        Row::ServerRow(server) => put(alloc, server),
        Row::Lease(lease) => put(alloc, lease),
        Row::Share(share) => put(alloc, share),
        Row::ShareCode(code) => put(alloc, code),
        Row::OAuthClient(client) => put(alloc, client),
        Row::OAuthCode(code) => put(alloc, code),
        Row::Next(next) => put(alloc, next),
    }
}

/// The item that removes the row of a key.
fn delete_of(alloc: Global, key: &RowKey) -> Result<Item, AllocError>
    ensures item { IfOk result (λ item. item ≡ Item.Delete (spec.kind_of key.now) (spec.key_text key.now)) }
    ensures valid { OnOk result (spec.IsKey key.now) }
{
    match key {
        RowKey::User(name) => delete(alloc, 1, name),
        RowKey::Group(name) => delete(alloc, 2, name),
        RowKey::Service(name) => delete(alloc, 3, name),
        RowKey::Role(name) => delete(alloc, 4, name),
        RowKey::Token(id) => delete(alloc, 5, id),
        RowKey::ServerRow(key) => delete(alloc, 6, key),
        RowKey::Lease(target) => delete(alloc, 7, target),
        RowKey::Share(key) => delete(alloc, 8, key),
        RowKey::ShareCode(id) => delete(alloc, 9, id),
        RowKey::OAuthClient(id) => delete(alloc, 10, id),
        RowKey::OAuthCode(hash) => delete(alloc, 11, hash),
        RowKey::Next(name) => delete(alloc, 12, name),
    }
}

fn put<R: Record>(alloc: Global, kept: &R) -> Result<Item, AllocError>
    ensures item { IfOk result (λ item. item ≡ Item.Put (row_with R.KIND (R.key_of kept.now) (R.shape_of kept.now))) }
    ensures valid { OnOk result (R.valid kept.now) }
{
    Ok(Item::Put(row_of(alloc, kept)?))
}

fn delete<K: Textual>(alloc: Global, kind: u8, key: &K) -> Result<Item, AllocError>
    ensures item { IfOk result (λ item. item ≡ Item.Delete kind (K.text_of key.now)) }
    ensures valid { OnOk result (K.valid key.now) }
{
    Ok(Item::Delete {
        kind,
        key: key.text(alloc)?,
    })
}
