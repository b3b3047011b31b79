//! A token as its tree has it.
ghost use Rattle.std.specs.Prelude.{◌≡◌, IfOk};
ghost use Rattle.std.specs.Option.{option_copied};

use hub_kit::list::List;
use hub_kit::text::Text;
use hub_rows::records::Token;
use keyed_rows::keyed::Keyed;
use row_indexes::hashed::Hashed;
use std::alloc::{AllocError, Global};
use std::marker::Model;

/// A token in a piece of memory of its own, which contracts see as that token. A node of the tree has room for fifteen, and about half of
/// it is empty where ids come in order: so it has an address for each, and not the row.
pub struct KeptToken {
    row: Box<Token>,
}

impl Drop for KeptToken {
    fn drop(self) {
        let KeptToken { row: _ } = self;
    }
}

impl Model for KeptToken {
    ghost use Rattle.hub_rows.specs.declared.records.Token.{Token};

    ghost Value = { Token };

    ghost view = { λ kept. kept.row.value };
}

impl KeptToken {
    /// A token in a piece of its own, whose scopes have no room to spare.
    pub(crate) fn new(alloc: Global, row: Token) -> Result<KeptToken, AllocError>
        ensures { IfOk result (λ kept. kept ≡ row) }
    {
        let row = Box::new(alloc, row)?;
        let mut kept = KeptToken { row };
        kept.fit(alloc);
        Ok(kept)
    }

    /// Copies the scopes, since a list that grew has room for more; without memory for that they stay.
    fn fit(&mut self, alloc: Global)
        ensures { self.new ≡ self.old }
    {
        if let Ok(scopes) = Vec::from_slice(alloc, self.row.scopes.as_slice()) {
            self.row.scopes = List::from_vec(scopes);
        }
    }

    pub fn row(&self) -> &Token
        ensures { result.now ≡ self.now }
    {
        self.row.as_ref()
    }

    /// Puts another token in its place, which takes no memory.
    pub(crate) fn set(&mut self, row: Token)
        ensures { self.new ≡ row }
    {
        *self.row = row;
    }
}

impl Keyed<u64> for KeptToken {
    ghost key_of = { λ row. row.id };

    fn key(&self) -> &u64 {
        &self.row().id
    }
}

impl Hashed for KeptToken {
    ghost hash_of = { λ row. row.hash };

    fn hash(&self) -> &Text {
        &self.row().hash
    }
}

/// The token that was found, if any.
pub(crate) fn row_in(kept: Option<&KeptToken>) -> Option<&Token>
    ensures { option_copied result ≡ option_copied kept.entry }
{
    match kept {
        Some(kept) => Some(kept.row()),
        None => None,
    }
}
