//! What a text can be: a name of some kind, a moment, a number, or the text itself.
ghost use Rattle.std.specs.Prelude.{◌≡◌, ℕ, List, Option, Some, IfOk};
ghost use Rattle.request_parts.specs.Names.{moment_of, name_of, server_of};
ghost use Rattle.request_parts.specs.Queries.{plain_decimal_of};

use crate::query::plain_decimal_of;
use hub_kit::moment::Moment;
use hub_kit::moments::read_moment;
use hub_kit::names::{
    GroupName, RoleName, ServerName, ServiceName, UserName, read_group, read_role, read_server,
    read_service, read_user,
};
use hub_kit::text::Text;
use std::alloc::{AllocError, Global};

/// A type whose values are read of texts.
pub trait FromText: Sized + Drop {
    /// The value that a text is, if it is one.
    ghost reads: { List ℕ → Option Self };

    fn from_text(alloc: Global, text: &str) -> Result<Option<Self>, AllocError>
        ensures { IfOk result (λ value. value ≡ reads text.now) };
}

impl FromText for UserName {
    ghost reads = { name_of };

    fn from_text(_: Global, text: &str) -> Result<Option<Self>, AllocError> {
        Ok(read_user(text.as_bytes()).ok())
    }
}

impl FromText for GroupName {
    ghost reads = { name_of };

    fn from_text(_: Global, text: &str) -> Result<Option<Self>, AllocError> {
        Ok(read_group(text.as_bytes()).ok())
    }
}

impl FromText for ServiceName {
    ghost reads = { name_of };

    fn from_text(_: Global, text: &str) -> Result<Option<Self>, AllocError> {
        Ok(read_service(text.as_bytes()).ok())
    }
}

impl FromText for RoleName {
    ghost reads = { name_of };

    fn from_text(_: Global, text: &str) -> Result<Option<Self>, AllocError> {
        Ok(read_role(text.as_bytes()).ok())
    }
}

impl FromText for ServerName {
    ghost reads = { server_of };

    fn from_text(_: Global, text: &str) -> Result<Option<Self>, AllocError> {
        Ok(read_server(text.as_bytes()).ok())
    }
}

impl FromText for Moment {
    ghost reads = { moment_of };

    fn from_text(alloc: Global, text: &str) -> Result<Option<Self>, AllocError> {
        let text = Text::from_str(alloc, text)?;
        Ok(read_moment(&text).ok())
    }
}

/// Decimal digits are read where they have no leading zero.
impl FromText for u64 {
    ghost reads = { plain_decimal_of };

    fn from_text(_: Global, text: &str) -> Result<Option<Self>, AllocError> {
        Ok(plain_decimal_of(text.as_bytes()))
    }
}

impl FromText for Text {
    ghost reads = { λ text. Some text };

    fn from_text(alloc: Global, text: &str) -> Result<Option<Self>, AllocError> {
        Ok(Some(Text::from_str(alloc, text)?))
    }
}
