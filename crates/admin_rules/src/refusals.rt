//! Why a call is refused.
ghost use Rattle.admin_rules.specs.Rules.{Checks, if_full, if_so};
ghost use Rattle.admin_rules.specs.declared.refusals.RuleRefusal.TheVariants.{Exists};

use hub_kit::names::{ServerName, UserName};
use hub_kit::text::Text;
use std::alloc::{AllocError, Global};

/// The first rule that refuses a call.
#[derive(Drop)]
pub enum RuleRefusal {
    /// What is to be made is there; of several names the first.
    Exists(Text),
    /// A server of the user is live.
    LiveServers,
    /// A user that isn't kept, the first in the order given.
    UnknownUser(UserName),
    /// A server whose row isn't kept, the first in the order given.
    UnknownServer(ServerName),
    /// The roles `user` and `admin` can't be changed.
    FixedRole,
    /// The text of the first scope whose custom name isn't declared.
    UnknownScope(Text),
    /// A holder that isn't kept: the first of the users, then of the groups, then of the services, each in the order of names.
    UnknownHolder(Text),
    /// The new rows would pass the limit of their kind. Kinds are numbered from 1 in the order of `hub_rows::records`.
    Full { kind: u8, limit: u32 },
    /// There was no memory.
    Memory,
}

impl From<AllocError> for RuleRefusal {
    ghost use Rattle.std.specs.Prelude.{◌≡◌};
    ghost use Rattle.admin_rules.specs.declared.refusals.RuleRefusal.TheVariants.{Memory};

    ghost from_gives = { λ _ e. e ≡ Memory };

    fn from(_: AllocError) -> RuleRefusal {
        RuleRefusal::Memory
    }
}

/// Refuses new rows that would pass the limit of their kind.
pub(crate) fn check_room(kind: u8, limit: u32, rows: u64, new: u64) -> Result<(), RuleRefusal>
    ensures { Checks (if_full kind limit rows new) result }
{
    if new > 0 && (limit as u128) < rows as u128 + new as u128 {
        return Err(RuleRefusal::Full { kind, limit });
    }
    Ok(())
}

/// Refuses a new row under a name that is kept.
pub(crate) fn check_absent(alloc: Global, is_kept: bool, name: &str) -> Result<(), RuleRefusal>
    ensures { Checks (if_so is_kept (Exists name.now)) result }
{
    if is_kept {
        return Err(RuleRefusal::Exists(Text::from_str(alloc, name)?));
    }
    Ok(())
}
