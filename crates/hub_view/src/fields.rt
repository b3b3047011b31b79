//! The members of an object, added one after the other.
ghost use Rattle.std.specs.Prelude.{◌≡◌, ◌++◌, List, [], IfOk, OnOk};
ghost use Rattle.hub_view.specs.Json.{Json, Member, member, pairs};
ghost use Rattle.hub_view.specs.Body.{body_tokens, members};
ghost use Rattle.hub_view.specs.Made.{holds};
ghost use Rattle.hub_view.specs.Words.{word_text};

use crate::body::Body;
use crate::word::{MemberKey, Word};
use std::alloc::{AllocError, Global};

/// An object as far as its members were added. That memory ran out on the way is remembered, and `into_body` tells it, so that
/// what adds members goes straight on.
pub struct Fields {
    list: Vec<(MemberKey, Body)>,
    failed: bool,
}

impl Fields {
    /// No members so far, and memory for so many, so that they don't move as they come.
    pub fn new(alloc: Global, room: usize) -> Fields
        ensures { holds result [] }
    {
        match Vec::with_capacity(alloc, room) {
            Ok(list) => Fields {
                list,
                failed: false,
            },
            Err(_) => Fields {
                list: Vec::new(alloc),
                failed: true,
            },
        }
    }

    /// Adds a member where it is shown. Keys have to come in the order of their bytes.
    pub fn add(&mut self, shown: bool, key: Word, value: Result<Body, AllocError>)
        ensures { (before : List Member) (json : Json) → holds self.old before → IfOk value (λ body. body_tokens body ≡ json)
            → holds self.new (before ++ member shown (word_text key) json) }
    {
        let added = match value {
            Ok(value) => push_shown(&mut self.list, shown, key, value),
            Err(error) => Err(error),
        };
        if added.is_err() {
            self.fail();
        }
    }

    /// Remembers that memory ran out.
    pub fn fail(&mut self)
        ensures { (any : List Member) → holds self.new any }
    {
        self.failed = true;
    }

    /// The object, unless memory ran out.
    pub fn into_body(self) -> Result<Body, AllocError>
        ensures { (members : List Member) → holds self members → IfOk result (λ body. body_tokens body ≡ pairs members) }
    {
        let Fields { list, failed } = self;
        let body = Body::Record(list);
        if failed {
            drop(body);
            return Err(AllocError);
        }
        Ok(body)
    }
}

/// Adds a member where it is shown.
fn push_shown(
    list: &mut Vec<(MemberKey, Body)>,
    shown: bool,
    key: Word,
    value: Body,
) -> Result<(), AllocError>
    ensures { OnOk result (members list.new.items ≡ members list.old.items ++ member shown (word_text key) (body_tokens value)) }
{
    if shown {
        list.push((MemberKey::of(key), value))?;
    }
    Ok(())
}
