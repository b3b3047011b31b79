//! The services as they are configured.
ghost use Rattle.std.specs.Prelude.{◌≡◌, ◌<◌, ◌↔◌, ℕ, IsTrue, length, MatchOption, IfOk};
ghost use Rattle.services_run.specs.Law.{service_path};
ghost use Rattle.services_run.specs.New.{Clashes, IsFirstRepeated, IsRepeated, ArePlaced};

use crate::place::{Managed, Place, State};
use hub_kit::names::ServiceName;
use hub_kit::text::Text;
use std::alloc::{AllocError, Global};

fn clashes(a: &Managed, b: &Managed) -> bool
    ensures { IsTrue result ↔ Clashes a.now b.now }
{
    a.name == b.name || a.target == b.target
}

fn stood_before(list: &[Managed], at: usize) -> bool
    requires { at < length list.now }
    ensures { IsTrue result ↔ IsRepeated list.now at }
{
    let mut before = 0;
    'befores: while before < at {
        if clashes(&list[before], &list[at]) {
            return true;
        }
        before += 1;
    }
    false
}

/// The first place whose name or target stood before.
pub fn first_repeated(list: &[Managed]) -> Option<usize>
    ensures { MatchOption result ((i : ℕ) → ¬ (IsRepeated list.now i)) (IsFirstRepeated list.now) }
{
    let mut at = 0;
    'places: while at < list.len() {
        if stood_before(list, at) {
            return Some(at);
        }
        at += 1;
    }
    None
}

/// The path of a service.
fn path_of(alloc: Global, name: &ServiceName) -> Result<Text, AllocError>
    ensures { IfOk result (λ path. path ≡ service_path name.now) }
{
    let mut path = Text::from_str(alloc, "/services/")?;
    path.push_str(name.as_str())?;
    Ok(path)
}

/// Makes the services, in order.
pub fn place_all(alloc: Global, list: Vec<Managed>) -> Result<Vec<Place>, AllocError>
    ensures { IfOk result (λ places. ArePlaced list.items places.items) }
{
    let mut places = Vec::new(alloc);
    'list: for managed in list {
        let path = path_of(alloc, &managed.name)?;
        places.push(Place {
            managed,
            path,
            state: State::Down,
            tries: 0,
        })?;
    }
    Ok(places)
}
