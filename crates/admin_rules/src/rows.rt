//! The rows of a change.
ghost use Rattle.std.specs.Prelude.{◌≡◌, ◌∷◌, [], ◌++◌, IfOk, OnOk, Ok};
ghost use Rattle.std.specs.List.{list_any};
ghost use Rattle.hub_tables.specs.Changes.{puts_hashed};
ghost use Rattle.admin_rules.specs.Rules.{Says};

use crate::refusals::RuleRefusal;
use hub_rows::changes::RowChange;
use std::alloc::{AllocError, Global};

/// Appends the change of one row.
pub(crate) fn append(changes: &mut Vec<RowChange>, change: RowChange) -> Result<(), AllocError>
    ensures { OnOk result (changes.new.items ≡ changes.old.items ++ change ∷ []) }
{
    changes.push(change)?;
    Ok(())
}

/// The rows of a change of one row.
pub(crate) fn one(alloc: Global, change: RowChange) -> Result<Vec<RowChange>, RuleRefusal>
    ensures answer { Says (Ok (change ∷ [])) result }
    ensures plain { IfOk result (λ rows. list_any puts_hashed rows.items ≡ puts_hashed change) }
{
    let mut rows = Vec::new(alloc);
    append(&mut rows, change)?;
    Ok(rows)
}
