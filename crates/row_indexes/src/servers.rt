//! The servers of a user, whose keys stand together.
ghost use Rattle.std.specs.Prelude.{◌≡◌, [], IfOk};
ghost use Rattle.std.specs.FinMap as map;
ghost use Rattle.std.specs.List.{filter};
ghost use Rattle.std.specs.Ordering.{eq_by_cmp};
ghost use Rattle.hub_kit.specs.KeyOrder.{name_cmp, key_cmp};
ghost use Rattle.keyed_rows.specs.Rows.{map_of};
ghost use Rattle.row_indexes.specs.Servers.{users_together};

use crate::grouped::{Grouped, keys_of};
use hub_kit::names::{ServerKey, ServerName, UserName, read_server};
use std::alloc::{AllocError, Global};
use std::collections::BTreeMap;

impl Grouped<UserName> for ServerKey {
    ghost owner_of = { λ key. key.user };

    ghost together = { users_together };

    fn owner(&self) -> &UserName {
        &self.user
    }
}

/// The keys of the servers of a user, in order.
pub fn server_keys_of<X>(
    alloc: Global,
    rows: &BTreeMap<ServerKey, X>,
    user: &UserName,
) -> Result<Vec<ServerKey>, AllocError>
    ensures { IfOk result (λ keys. keys.items ≡ filter (λ key. eq_by_cmp name_cmp key.user user.now) (map.keys (map_of key_cmp rows.now))) }
{
    let first = ServerKey {
        user: *user,
        server: default_server(),
    };
    keys_of(alloc, rows, user, first)
}

fn default_server() -> ServerName
    ensures { result ≡ [] }
{
    match read_server(b"") {
        Ok(name) => name,
        Err(_) => unreachable!(),
    }
}
