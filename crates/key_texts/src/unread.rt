//! Why nothing was read.
use std::alloc::AllocError;

/// There is nothing of this text or value, or no memory for it.
#[derive(Clone, Copy)]
pub enum Unread {
    Bad,
    Memory,
}

impl From<AllocError> for Unread {
    ghost use Rattle.std.specs.Prelude.{◌≡◌};
    ghost use Rattle.key_texts.specs.declared.unread.Unread.TheVariants.{Memory};

    ghost from_gives = { λ _ e. e ≡ Memory };

    fn from(_: AllocError) -> Unread {
        Unread::Memory
    }
}
