//! Keys of shares.
ghost use Rattle.std.specs.Prelude.{◌≡◌, ℕ, List};
ghost use Rattle.std.specs.declared.cmp.Ordering.TheVariants.{Less};
ghost use Rattle.hub_kit.specs.KeyOrder.{name_cmp};
ghost use Rattle.hub_rows.specs.ShareOrder.{recipient_cmp, recipient_exact, share_exact};

use hub_kit::key::Key;
use hub_kit::names::{GroupName, ServerKey, UserName};
use keyed_rows::keyed::CopyKey;
use std::alloc::{AllocError, Global};

/// To whom a server is shared. Users stand before groups, each by name.
#[derive(Clone, Copy, PartialEq, Eq, PartialOrd, Ord)]
pub enum Recipient {
    User(UserName),
    Group(GroupName),
}

/// What a share is kept under: the server, and to whom it is shared. Ordered by the server, and then by the recipient.
#[derive(Clone, Copy, PartialEq, Eq, PartialOrd, Ord)]
pub struct ShareKey {
    pub server: ServerKey,
    pub to: Recipient,
}

impl Key for Recipient {
    ghost exact = { recipient_exact };
}

impl Key for ShareKey {
    ghost exact = { share_exact };
}

impl CopyKey for ShareKey {
    fn copy_key(&self, _alloc: Global) -> Result<ShareKey, AllocError> {
        Ok(*self)
    }
}

/// The order of recipients: users stand before groups, each by name.
pub fn order_of_recipients()
    ensures users_first { (user group : List ℕ) → recipient_cmp (Recipient.User user) (Recipient.Group group) ≡ Less }
    ensures users { (a b : List ℕ) → recipient_cmp (Recipient.User a) (Recipient.User b) ≡ name_cmp a b }
    ensures groups { (a b : List ℕ) → recipient_cmp (Recipient.Group a) (Recipient.Group b) ≡ name_cmp a b }
{}
