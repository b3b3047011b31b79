//! The texts of servers, leases, shares and next numbers.
ghost use Rattle.key_texts.specs.KeyTexts.{server_text, share_text};
ghost use Rattle.record_texts.specs.Servers.{server_object, lease_object, share_object, next_object, IsServerRow, IsLease, IsShare, IsNext};
ghost use Rattle.record_texts.specs.Servers.{server_plain, lease_plain, share_plain, next_plain};

use crate::field::{both, lacking_number_at, maybe_number_at, number_at, shared_at, text_at};
use crate::fields::Fields;
use crate::record::Record;
use hub_kit::names::ServerKey;
use hub_kit::target::Target;
use hub_kit::text::Text;
use hub_rows::counter::Counter;
use hub_rows::keys::ShareKey;
use hub_rows::records::{Lease, Next, ServerRow, Share};
use key_texts::textual::Textual;
use key_texts::unread::Unread;
use serde_json::Value;
use std::alloc::{AllocError, Global};

impl Record for ServerRow {
    ghost KIND = { 6 };

    const KIND: u8 = 6;

    ghost key_of = { λ r. server_text r.key };

    ghost shape_of = { server_object };

    ghost valid = { IsServerRow };

    ghost plain = { server_plain };

    fn key(&self, alloc: Global) -> Result<Text, AllocError> {
        self.key.text(alloc)
    }

    fn value(&self, alloc: Global) -> Result<Value, AllocError> {
        let _key = self.key.text(alloc)?;
        let fields = Fields::new(alloc)
            .number("created", self.created.seconds())?
            .maybe_number("last_activity", &self.last_activity)?
            .maybe_number("started", &self.started)?;
        Ok(fields.into_object())
    }

    fn find(alloc: Global, key: &str, value: &Value) -> Result<ServerRow, Unread> {
        Ok(ServerRow {
            key: ServerKey::of_text(alloc, key)?,
            created: number_at(value, "created")?,
            last_activity: maybe_number_at(value, "last_activity")?,
            started: maybe_number_at(value, "started")?,
        })
    }
}

impl Record for Lease {
    ghost KIND = { 7 };

    const KIND: u8 = 7;

    ghost key_of = { λ l. l.target };

    ghost shape_of = { lease_object };

    ghost valid = { IsLease };

    ghost plain = { lease_plain };

    fn key(&self, alloc: Global) -> Result<Text, AllocError> {
        self.target.text(alloc)
    }

    fn value(&self, alloc: Global) -> Result<Value, AllocError> {
        let _target = self.target.as_text();
        let fields = Fields::new(alloc).text("server", &self.server)?;
        match &self.generation {
            Some(generation) => {
                let generation = *generation;
                Ok(fields.number("generation", generation)?.into_object())
            }
            None => Ok(fields.into_object()),
        }
    }

    fn find(alloc: Global, key: &str, value: &Value) -> Result<Lease, Unread> {
        let held = both(Target::of_text(alloc, key), text_at(alloc, value, "server"));
        let ((target, server), generation) = both(held, lacking_number_at(value, "generation"))?;
        Ok(Lease {
            target,
            server,
            generation,
        })
    }
}

impl Record for Share {
    ghost KIND = { 8 };

    const KIND: u8 = 8;

    ghost key_of = { λ s. share_text s.key };

    ghost shape_of = { share_object };

    ghost valid = { IsShare };

    ghost plain = { share_plain };

    fn key(&self, alloc: Global) -> Result<Text, AllocError> {
        self.key.text(alloc)
    }

    fn value(&self, alloc: Global) -> Result<Value, AllocError> {
        let _key = self.key.text(alloc)?;
        let fields = Fields::new(alloc)
            .number("created", self.created.seconds())?
            .texts("scopes", self.scopes.as_slice())?;
        Ok(fields.into_object())
    }

    fn find(alloc: Global, key: &str, value: &Value) -> Result<Share, Unread> {
        Ok(Share {
            key: ShareKey::of_text(alloc, key)?,
            created: number_at(value, "created")?,
            scopes: shared_at(alloc, value, "scopes")?,
        })
    }
}

impl Record for Next {
    ghost KIND = { 12 };

    const KIND: u8 = 12;

    ghost key_of = { λ n. n.name };

    ghost shape_of = { next_object };

    ghost valid = { IsNext };

    ghost plain = { next_plain };

    fn key(&self, alloc: Global) -> Result<Text, AllocError> {
        self.name.text(alloc)
    }

    fn value(&self, alloc: Global) -> Result<Value, AllocError> {
        let _name = self.name.as_text();
        let next = self.next;
        let fields = Fields::new(alloc).number("next", next)?;
        Ok(fields.into_object())
    }

    fn find(alloc: Global, key: &str, value: &Value) -> Result<Next, Unread> {
        Ok(Next {
            name: Counter::of_text(alloc, key)?,
            next: number_at(value, "next")?,
        })
    }
}
