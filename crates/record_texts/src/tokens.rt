//! The texts of tokens, share codes, and the clients and codes of OAuth.
ghost use Rattle.std.specs.Prelude.{decimal};
ghost use Rattle.record_texts.specs.Tokens.{token_object, code_object, client_object, grant_code_object, IsToken, IsCode, IsClient};
ghost use Rattle.record_texts.specs.Tokens.{IsGrantCode, token_plain, code_plain, client_plain, grant_code_plain};

use crate::field::{both, maybe_number_at, maybe_text_at, number_at, text_at, texts_at};
use crate::fields::Fields;
use crate::record::Record;
use hub_kit::text::Text;
use hub_rows::client_id::ClientId;
use hub_rows::records::{OAuthClient, OAuthCode, ShareCode, Token};
use key_texts::textual::Textual;
use key_texts::unread::Unread;
use serde_json::Value;
use std::alloc::{AllocError, Global};

impl Record for Token {
    ghost KIND = { 5 };

    const KIND: u8 = 5;

    ghost key_of = { λ t. decimal t.id };

    ghost shape_of = { token_object };

    ghost valid = { IsToken };

    ghost plain = { token_plain };

    fn key(&self, alloc: Global) -> Result<Text, AllocError> {
        self.id.text(alloc)
    }

    fn value(&self, alloc: Global) -> Result<Value, AllocError> {
        let _id = self.id;
        let fields = Fields::new(alloc)
            .maybe_text("client", &self.client)?
            .number("created", self.created.seconds())?
            .maybe_number("expires_at", &self.expires_at)?
            .string("hash", self.hash.as_str())?
            .maybe_text("issued_for", &self.issued_for)?
            .string("note", self.note.as_str())?
            .text("owner", &self.owner)?
            .texts("scopes", self.scopes.as_slice())?;
        Ok(fields.into_object())
    }

    fn find(alloc: Global, key: &str, value: &Value) -> Result<Token, Unread> {
        let id = u64::of_text(alloc, key);
        let made_for = both(
            maybe_text_at(alloc, value, "client"),
            maybe_text_at(alloc, value, "issued_for"),
        );
        let times = both(
            number_at(value, "created"),
            maybe_number_at(value, "expires_at"),
        );
        let texts = both(text_at(alloc, value, "hash"), text_at(alloc, value, "note"));
        let rights = both(
            text_at(alloc, value, "owner"),
            texts_at(alloc, value, "scopes"),
        );
        let ((id, (client, issued_for)), ((created, expires_at), ((hash, note), (owner, scopes)))) =
            both(both(id, made_for), both(times, both(texts, rights)))?;
        Ok(Token {
            id,
            client,
            created,
            expires_at,
            hash,
            issued_for,
            note,
            owner,
            scopes,
        })
    }
}

impl Record for ShareCode {
    ghost KIND = { 9 };

    const KIND: u8 = 9;

    ghost key_of = { λ c. decimal c.id };

    ghost shape_of = { code_object };

    ghost valid = { IsCode };

    ghost plain = { code_plain };

    fn key(&self, alloc: Global) -> Result<Text, AllocError> {
        self.id.text(alloc)
    }

    fn value(&self, alloc: Global) -> Result<Value, AllocError> {
        let _id = self.id;
        let fields = Fields::new(alloc)
            .number("created", self.created.seconds())?
            .number("expires_at", self.expires_at.seconds())?
            .string("hash", self.hash.as_str())?
            .texts("scopes", self.scopes.as_slice())?
            .text("server", &self.server)?;
        Ok(fields.into_object())
    }

    fn find(alloc: Global, key: &str, value: &Value) -> Result<ShareCode, Unread> {
        let id = u64::of_text(alloc, key);
        let times = both(number_at(value, "created"), number_at(value, "expires_at"));
        let hash = text_at(alloc, value, "hash");
        let rights = both(
            texts_at(alloc, value, "scopes"),
            text_at(alloc, value, "server"),
        );
        let ((id, (created, expires_at)), (hash, (scopes, server))) = both(
            both(id, times),
            both(hash, rights),
        )?;
        Ok(ShareCode {
            id,
            created,
            expires_at,
            hash,
            scopes,
            server,
        })
    }
}

impl Record for OAuthClient {
    ghost KIND = { 10 };

    const KIND: u8 = 10;

    ghost key_of = { λ c. c.id };

    ghost shape_of = { client_object };

    ghost valid = { IsClient };

    ghost plain = { client_plain };

    fn key(&self, alloc: Global) -> Result<Text, AllocError> {
        self.id.text(alloc)
    }

    fn value(&self, alloc: Global) -> Result<Value, AllocError> {
        let _id = self.id.as_text();
        let fields = Fields::new(alloc)
            .string("hash", self.hash.as_str())?
            .string("redirect_uri", self.redirect_uri.as_str())?;
        Ok(fields.into_object())
    }

    fn find(alloc: Global, key: &str, value: &Value) -> Result<OAuthClient, Unread> {
        let named = both(ClientId::of_text(alloc, key), text_at(alloc, value, "hash"));
        let redirect_uri = text_at(alloc, value, "redirect_uri");
        let ((id, hash), redirect_uri) = both(named, redirect_uri)?;
        Ok(OAuthClient {
            id,
            hash,
            redirect_uri,
        })
    }
}

impl Record for OAuthCode {
    ghost KIND = { 11 };

    const KIND: u8 = 11;

    ghost key_of = { λ c. c.hash };

    ghost shape_of = { grant_code_object };

    ghost valid = { IsGrantCode };

    ghost plain = { grant_code_plain };

    fn key(&self, alloc: Global) -> Result<Text, AllocError> {
        self.hash.text(alloc)
    }

    fn value(&self, alloc: Global) -> Result<Value, AllocError> {
        let fields = Fields::new(alloc)
            .string("client", self.client.as_str())?
            .number("expires_at", self.expires_at.seconds())?
            .string("owner", self.owner.as_str())?
            .string("redirect_uri", self.redirect_uri.as_str())?
            .maybe_number("token", &self.token)?;
        Ok(fields.into_object())
    }

    fn find(alloc: Global, key: &str, value: &Value) -> Result<OAuthCode, Unread> {
        let names = both(Text::of_text(alloc, key), text_at(alloc, value, "client"));
        let numbers = both(
            number_at(value, "expires_at"),
            maybe_number_at(value, "token"),
        );
        let texts = both(
            text_at(alloc, value, "owner"),
            text_at(alloc, value, "redirect_uri"),
        );
        let ((hash, client), ((expires_at, token), (owner, redirect_uri))) = both(
            names,
            both(numbers, texts),
        )?;
        Ok(OAuthCode {
            hash,
            client,
            expires_at,
            owner,
            redirect_uri,
            token,
        })
    }
}
