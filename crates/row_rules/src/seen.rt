//! What was seen of rows: the servers and the generations of leases, and the servers of tokens that were made at a start.
ghost use Rattle.std.specs.Prelude.{◌≡◌, not, [], IfOk};
ghost use Rattle.hub_kit.specs.KeyOrder.{key_cmp};
ghost use Rattle.keyed_rows.specs.Rows.{map_of};
ghost use Rattle.row_rules.specs.Across as spec;
ghost use Rattle.row_rules.specs.Judged.{is_noted, noted, HasSeen, IsAdded};

use hub_kit::key::Key;
use hub_kit::names::ServerKey;
use hub_kit::text::Text;
use hub_rows::rows::Row;
use keyed_rows::{insert_row, row_at};
use std::alloc::{AllocError, Global};
use std::collections::BTreeMap;

pub(crate) struct Seen {
    servers: BTreeMap<ServerKey, ()>,
    generations: BTreeMap<u64, ()>,
    started: BTreeMap<ServerKey, ()>,
}

impl Drop for Seen {
    fn drop(self) {
        let Seen {
            servers: _,
            generations: _,
            started: _,
        } = self;
    }
}

impl Seen {
    /// Nothing was seen yet. Takes no memory.
    pub(crate) fn new(alloc: Global) -> Seen
        ensures { HasSeen result [] }
    {
        Seen {
            servers: BTreeMap::new(alloc),
            generations: BTreeMap::new(alloc),
            started: BTreeMap::new(alloc),
        }
    }

    /// Notes what a row has, and tells whether no row before it has the same.
    pub(crate) fn add(&mut self, row: &Row) -> Result<bool, AllocError>
        ensures { IfOk result (λ sole. IsAdded self.old row.now sole self.new) }
    {
        let server = note(&mut self.servers, leased_server(row))?;
        let generation = note(&mut self.generations, leased_generation(row))?;
        let started = note(&mut self.started, started_server(row))?;
        Ok(!(server || generation || started))
    }
}

/// Notes a mark, if there is one, and tells whether it was noted before.
pub(crate) fn note<K: Key + Copy>(
    marks: &mut BTreeMap<K, ()>,
    mark: Option<K>,
) -> Result<bool, AllocError>
    ensures before { IfOk result (λ before. before ≡ is_noted (map_of K.Ord.cmp marks.old) mark) }
    ensures after { IfOk result (λ before. map_of K.Ord.cmp marks.new ≡ noted (map_of K.Ord.cmp marks.old) mark) }
{
    let Some(mark) = mark else {
        return Ok(false);
    };
    let was_noted = row_at(marks, &mark).is_some();
    insert_row(marks, mark, ())?;
    Ok(was_noted)
}

fn leased_server(row: &Row) -> Option<ServerKey>
    ensures { result ≡ spec.leased_server row.now }
{
    match row {
        Row::Lease(lease) => Some(lease.server),
        _ => None,
    }
}

fn leased_generation(row: &Row) -> Option<u64>
    ensures { result ≡ spec.leased_generation row.now }
{
    match row {
        Row::Lease(lease) => lease.generation,
        _ => None,
    }
}

fn started_server(row: &Row) -> Option<ServerKey>
    ensures { result ≡ spec.started_server row.now }
{
    match row {
        Row::Token(token) => started_by(&token.client, token.issued_for),
        _ => None,
    }
}

/// The server that a token was made for at its start.
pub(crate) fn started_by(client: &Option<Text>, issued_for: Option<ServerKey>) -> Option<ServerKey>
    ensures { result ≡ spec.started_by client.now issued_for }
{
    match client {
        Some(_) => None,
        None => issued_for,
    }
}
