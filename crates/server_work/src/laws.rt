//! Why chains break.
ghost use Rattle.server_work.specs.Broken.{BrokenByOther, WaitsAfter, BrokenByOthers, AloneUnbroken};

use crate::book::ToldBook;

/// Laws of the life table. An outcome that a chain waits for is refused only after an event of its generation's life other than
/// a wish to stop, and after an outcome that owes something the life waits for the outcome of that. It does nothing: its
/// contract is the laws.
pub fn broken_laws()
    ensures broken { BrokenByOther }
    ensures waits { WaitsAfter }
{}

/// Laws of the chains of a pass. A chain that a life waited for breaks only where another pass made an entry of that life after
/// the last one of the chain, and so never where the pass is alone. It does nothing: its contract is the laws.
pub fn chain_laws<B: ToldBook>()
    ensures others { BrokenByOthers B.reached B.notes B.is_entry }
    ensures alone { AloneUnbroken B.reached B.notes B.is_entry }
{
    B::follows();
}
