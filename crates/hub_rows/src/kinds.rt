//! Each record as a row of its kind.
ghost use Rattle.std.specs.Prelude.{◌≡◌, IfOk};
ghost use Rattle.hub_rows.specs.declared.rows.Row as row;
ghost use Rattle.hub_rows.specs.declared.rows.Row.TheVariants as Row;

use crate::records::{
    Group, Lease, Next, OAuthClient, OAuthCode, Role, ServerRow, Service, Share, ShareCode, Token,
    User,
};
use crate::rows::Row;
use std::alloc::{AllocError, Global};

/// A record of one of the kinds.
pub trait OfKind: Sized {
    ghost row_of: { Self → row.Row };

    fn copy_row(&self, alloc: Global) -> Result<Row, AllocError>
        ensures { IfOk result (λ row. row ≡ row_of self.now) };
}

impl OfKind for User {
    ghost row_of = { Row.User };

    fn copy_row(&self, _: Global) -> Result<Row, AllocError> {
        Ok(Row::User(*self))
    }
}

impl OfKind for Group {
    ghost row_of = { Row.Group };

    fn copy_row(&self, alloc: Global) -> Result<Row, AllocError> {
        Ok(Row::Group(self.copy(alloc)?))
    }
}

impl OfKind for Service {
    ghost row_of = { Row.Service };

    fn copy_row(&self, _: Global) -> Result<Row, AllocError> {
        Ok(Row::Service(*self))
    }
}

impl OfKind for Role {
    ghost row_of = { Row.Role };

    fn copy_row(&self, alloc: Global) -> Result<Row, AllocError> {
        Ok(Row::Role(self.copy(alloc)?))
    }
}

impl OfKind for Token {
    ghost row_of = { Row.Token };

    fn copy_row(&self, alloc: Global) -> Result<Row, AllocError> {
        Ok(Row::Token(self.copy(alloc)?))
    }
}

impl OfKind for ServerRow {
    ghost row_of = { Row.ServerRow };

    fn copy_row(&self, _: Global) -> Result<Row, AllocError> {
        Ok(Row::ServerRow(*self))
    }
}

impl OfKind for Lease {
    ghost row_of = { Row.Lease };

    fn copy_row(&self, alloc: Global) -> Result<Row, AllocError> {
        Ok(Row::Lease(self.copy(alloc)?))
    }
}

impl OfKind for Share {
    ghost row_of = { Row.Share };

    fn copy_row(&self, alloc: Global) -> Result<Row, AllocError> {
        Ok(Row::Share(self.copy(alloc)?))
    }
}

impl OfKind for ShareCode {
    ghost row_of = { Row.ShareCode };

    fn copy_row(&self, alloc: Global) -> Result<Row, AllocError> {
        Ok(Row::ShareCode(self.copy(alloc)?))
    }
}

impl OfKind for OAuthClient {
    ghost row_of = { Row.OAuthClient };

    fn copy_row(&self, alloc: Global) -> Result<Row, AllocError> {
        Ok(Row::OAuthClient(self.copy(alloc)?))
    }
}

impl OfKind for OAuthCode {
    ghost row_of = { Row.OAuthCode };

    fn copy_row(&self, alloc: Global) -> Result<Row, AllocError> {
        Ok(Row::OAuthCode(self.copy(alloc)?))
    }
}

impl OfKind for Next {
    ghost row_of = { Row.Next };

    fn copy_row(&self, alloc: Global) -> Result<Row, AllocError> {
        Ok(Row::Next(self.copy(alloc)?))
    }
}
