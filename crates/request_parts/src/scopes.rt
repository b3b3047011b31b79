//! Lists of scopes.
ghost use Rattle.std.specs.Prelude.{◌≡◌, ◌++◌, ◌∷◌, [], IfOk, OnOk};
ghost use Rattle.scope_filters.specs.Scopes.{scope_read};
ghost use Rattle.request_parts.specs.Scopes as spec;

use hub_kit::list::List;
use hub_kit::text::Text;
use scope_filters::scope::{RawScope, ScopeError, read_scope};
use std::alloc::{AllocError, Global};

/// Why a list of texts is no list of scopes: the place of the first that is none, counted from 0, and what is wrong with it.
#[derive(Clone, Copy, Debug, PartialEq, Eq)]
pub struct ScopeFault {
    pub index: usize,
    pub error: ScopeError,
}

/// The scopes of texts.
#[tactic(auto, using(crate::proofs::ReadScopes::one_more, crate::proofs::Fronts::whole_ok), unfolding(crate::specs::Scopes::scopes_read))]
pub fn read_scopes(
    alloc: Global,
    texts: &[Text],
) -> Result<Result<List<RawScope>, ScopeFault>, AllocError>
    ensures { IfOk result (λ scopes. scopes ≡ spec.scopes_read texts.now) }
{
    let mut scopes = List::new(alloc);
    for (index, text) in texts.iter().enumerate() {
        match scope_at(index, text) {
            Ok(scope) => push(&mut scopes, scope)?,
            Err(fault) => return Ok(Err(fault)),
        }
    }
    Ok(Ok(scopes))
}

/// The scope of the text at a place.
fn scope_at(index: usize, text: &Text) -> Result<RawScope, ScopeFault>
    ensures { result ≡ spec.at_place index (scope_read text.now) }
{
    match read_scope(text.as_str()) {
        Ok(scope) => Ok(scope),
        Err(error) => Err(ScopeFault { index, error }),
    }
}

/// Adds an item at the end.
fn push<T: Copy>(items: &mut List<T>, item: T) -> Result<(), AllocError>
    ensures { OnOk result (items.new ≡ items.old ++ item ∷ []) }
{
    items.push(item)?;
    Ok(())
}
