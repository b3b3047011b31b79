//! What has a text of its own: names, servers, owners, the keys of shares, scopes and numbers.
ghost use Rattle.std.specs.Prelude.{◌≡◌, ◌<◌, ◌^◌, ◌++◌, ℕ, List, decimal, codes, ⊤, IfOk, OnOk, IsTrue};
ghost use Rattle.std.specs.Option.{option_copied};
ghost use Rattle.hub_kit.specs.Names.{IsName};
ghost use Rattle.hub_kit.specs.Targets.{IsTarget};
ghost use Rattle.scope_filters.specs.Scopes.{before, after};
ghost use Rattle.scope_filters.specs.Scopes as scopes;
ghost use Rattle.hub_rows.specs.ClientIds.{is_client_id};
ghost use Rattle.hub_rows.specs.Counters.{is_counter};
ghost use Rattle.hub_rows.specs.declared.keys.ShareKey.{ShareKey};
ghost use Rattle.key_texts.specs.Finds.{Finds};
ghost use Rattle.key_texts.specs.KeyTexts.{server_text, owner_text, recipient_text, share_text, IsServer, IsOwner, IsRecipient, IsShareKey};
ghost use Rattle.key_texts.specs.KeyTexts.{IsScope};

use crate::unread::Unread;
use hub_kit::names::{self, GroupName, RoleName, ServerKey, ServiceName, UserName};
use hub_kit::target::Target;
use hub_kit::targets::{TargetError, read_target};
use hub_kit::text::Text;
use hub_rows::client_id::ClientId;
use hub_rows::counter::Counter;
use hub_rows::keys::{Recipient, ShareKey};
use scope_filters::holder::Owner;
use scope_filters::scope::{RawScope, ScopeError, read_scope, scope_text};
use std::alloc::{AllocError, Global};

/// Written as a text, from which it is read again.
pub trait Textual: Drop {
    ghost text_of: { Self → List ℕ };

    /// What is true of each value of the type.
    ghost valid: { Self → Type 0 };

    fn text(&self, alloc: Global) -> Result<Text, AllocError>
        ensures text { IfOk result (λ text. text ≡ text_of self.now) }
        ensures valid { OnOk result (valid self.now) };

    fn of_text(alloc: Global, text: &str) -> Result<Self, Unread>
        ensures { (x : Self) → valid x → text_of x ≡ text.now → Finds result x };
}

impl Textual for Text {
    ghost text_of = { λ text. text };

    ghost valid = { λ text. ⊤ };

    fn text(&self, alloc: Global) -> Result<Text, AllocError> {
        self.copy(alloc)
    }

    fn of_text(alloc: Global, text: &str) -> Result<Text, Unread> {
        Ok(Text::from_str(alloc, text)?)
    }
}

impl Textual for Counter {
    ghost text_of = { λ counter. counter };

    ghost valid = { λ counter. IsTrue (is_counter counter) };

    fn text(&self, alloc: Global) -> Result<Text, AllocError> {
        self.as_text().copy(alloc)
    }

    fn of_text(alloc: Global, text: &str) -> Result<Counter, Unread> {
        match Counter::from_text(Text::from_str(alloc, text)?) {
            Some(counter) => Ok(counter),
            None => Err(Unread::Bad),
        }
    }
}

impl Textual for ClientId {
    ghost text_of = { λ id. id };

    ghost valid = { λ id. IsTrue (is_client_id id) };

    fn text(&self, alloc: Global) -> Result<Text, AllocError> {
        self.as_text().copy(alloc)
    }

    fn of_text(alloc: Global, text: &str) -> Result<ClientId, Unread> {
        match ClientId::from_text(Text::from_str(alloc, text)?) {
            Some(id) => Ok(id),
            None => Err(Unread::Bad),
        }
    }
}

impl Textual for u64 {
    ghost text_of = { decimal };

    ghost valid = { λ n. n < 2 ^ 64 };

    fn text(&self, alloc: Global) -> Result<Text, AllocError> {
        let n = *self;
        Ok(Text::from_string(format!(in alloc; "{n}")?))
    }

    fn of_text(_alloc: Global, text: &str) -> Result<u64, Unread> {
        match text.parse::<u64>() {
            Ok(n) => Ok(n),
            Err(_) => Err(Unread::Bad),
        }
    }
}

impl Textual for UserName {
    ghost text_of = { λ name. name };

    ghost valid = { IsName };

    fn text(&self, alloc: Global) -> Result<Text, AllocError> {
        Text::from_str(alloc, self.as_str())
    }

    fn of_text(_alloc: Global, text: &str) -> Result<UserName, Unread> {
        match names::read_user(text.as_bytes()) {
            Ok(name) => Ok(name),
            Err(_) => Err(Unread::Bad),
        }
    }
}

impl Textual for GroupName {
    ghost text_of = { λ name. name };

    ghost valid = { IsName };

    fn text(&self, alloc: Global) -> Result<Text, AllocError> {
        Text::from_str(alloc, self.as_str())
    }

    fn of_text(_alloc: Global, text: &str) -> Result<GroupName, Unread> {
        match names::read_group(text.as_bytes()) {
            Ok(name) => Ok(name),
            Err(_) => Err(Unread::Bad),
        }
    }
}

impl Textual for ServiceName {
    ghost text_of = { λ name. name };

    ghost valid = { IsName };

    fn text(&self, alloc: Global) -> Result<Text, AllocError> {
        Text::from_str(alloc, self.as_str())
    }

    fn of_text(_alloc: Global, text: &str) -> Result<ServiceName, Unread> {
        match names::read_service(text.as_bytes()) {
            Ok(name) => Ok(name),
            Err(_) => Err(Unread::Bad),
        }
    }
}

impl Textual for RoleName {
    ghost text_of = { λ name. name };

    ghost valid = { IsName };

    fn text(&self, alloc: Global) -> Result<Text, AllocError> {
        Text::from_str(alloc, self.as_str())
    }

    fn of_text(_alloc: Global, text: &str) -> Result<RoleName, Unread> {
        match names::read_role(text.as_bytes()) {
            Ok(name) => Ok(name),
            Err(_) => Err(Unread::Bad),
        }
    }
}

impl Textual for ServerKey {
    ghost text_of = { server_text };

    ghost valid = { IsServer };

    fn text(&self, alloc: Global) -> Result<Text, AllocError> {
        let mut text = Text::from_str(alloc, self.user.as_str())?;
        text.push_str("/")?;
        text.push_str(self.server.as_str())?;
        Ok(text)
    }

    fn of_text(_alloc: Global, text: &str) -> Result<ServerKey, Unread> {
        match names::read_key(text.as_bytes()) {
            Ok(key) => Ok(key),
            Err(_) => Err(Unread::Bad),
        }
    }
}

impl Textual for Target {
    ghost text_of = { λ target. target };

    ghost valid = { IsTarget };

    fn text(&self, alloc: Global) -> Result<Text, AllocError> {
        self.as_text().copy(alloc)
    }

    fn of_text(alloc: Global, text: &str) -> Result<Target, Unread> {
        match read_target(alloc, text.as_bytes()) {
            Ok(target) => Ok(target),
            Err(TargetError::BadTarget) => Err(Unread::Bad),
            Err(TargetError::Memory) => Err(Unread::Memory),
        }
    }
}

impl Textual for RawScope {
    ghost text_of = { scopes.scope_text };

    ghost valid = { IsScope };

    fn text(&self, alloc: Global) -> Result<Text, AllocError> {
        scope_text(alloc, self)
    }

    fn of_text(_alloc: Global, text: &str) -> Result<RawScope, Unread> {
        match read_scope(text) {
            Ok(scope) => Ok(scope),
            Err(_) => Err(Unread::Bad),
        }
    }
}

/// A text of a kind and a name, `KIND:NAME`.
fn kinded(alloc: Global, kind: &str, name: &str) -> Result<Text, AllocError>
    ensures { IfOk result (λ text. text ≡ kind.now ++ name.now) }
{
    let mut text = Text::from_str(alloc, kind)?;
    text.push_str(name)?;
    Ok(text)
}

/// What stands before the first mark of a text, and what stands after it.
#[derive(Clone, Copy)]
struct Cut<'a> {
    front: &'a str,
    back: Option<&'a str>,
}

fn cut_at(text: &str, mark: char) -> Cut<'_>
    requires { mark < 128 }
    ensures front { result.front.now ≡ before mark text.now }
    ensures back { option_copied result.back ≡ after mark text.now }
{
    match text.split_once(mark) {
        Some((front, back)) => Cut {
            front,
            back: Some(back),
        },
        None => Cut {
            front: text,
            back: None,
        },
    }
}

impl Textual for Owner {
    ghost text_of = { owner_text };

    ghost valid = { IsOwner };

    fn text(&self, alloc: Global) -> Result<Text, AllocError> {
        match self {
            Owner::User(user) => kinded(alloc, "user:", user.as_str()),
            Owner::Service(service) => kinded(alloc, "service:", service.as_str()),
        }
    }

    fn of_text(alloc: Global, text: &str) -> Result<Owner, Unread> {
        let cut = cut_at(text, ':');
        let Some(name) = cut.back else {
            return Err(Unread::Bad);
        };
        if cut.front == "user" {
            UserName::of_text(alloc, name).map(Owner::User)
        } else {
            ServiceName::of_text(alloc, name).map(Owner::Service)
        }
    }
}

impl Textual for Recipient {
    ghost text_of = { recipient_text };

    ghost valid = { IsRecipient };

    fn text(&self, alloc: Global) -> Result<Text, AllocError> {
        match self {
            Recipient::User(user) => kinded(alloc, "user:", user.as_str()),
            Recipient::Group(group) => kinded(alloc, "group:", group.as_str()),
        }
    }

    fn of_text(alloc: Global, text: &str) -> Result<Recipient, Unread> {
        let cut = cut_at(text, ':');
        let Some(name) = cut.back else {
            return Err(Unread::Bad);
        };
        if cut.front == "user" {
            UserName::of_text(alloc, name).map(Recipient::User)
        } else {
            GroupName::of_text(alloc, name).map(Recipient::Group)
        }
    }
}

impl Textual for ShareKey {
    ghost text_of = { share_text };

    ghost valid = { IsShareKey };

    fn text(&self, alloc: Global) -> Result<Text, AllocError> {
        let mut text = self.server.text(alloc)?;
        let to = self.to.text(alloc)?;
        text.push_str(",")?;
        text.push_str(to.as_str())?;
        Ok(text)
    }

    fn of_text(alloc: Global, text: &str) -> Result<ShareKey, Unread> {
        let cut = cut_at(text, ',');
        match cut.back {
            Some(to) => share_of(alloc, cut.front, to),
            None => Err(Unread::Bad),
        }
    }
}

/// The key of the texts of its parts.
fn share_of(alloc: Global, server: &str, to: &str) -> Result<ShareKey, Unread>
    ensures { (x : ShareKey) → IsShareKey x → server_text x.server ≡ server.now → recipient_text x.to ≡ to.now → Finds result x }
{
    Ok(ShareKey {
        server: ServerKey::of_text(alloc, server)?,
        to: Recipient::of_text(alloc, to)?,
    })
}
