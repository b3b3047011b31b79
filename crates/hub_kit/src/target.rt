//! Targets: where a server, a proxy or the hub listens.
ghost use Rattle.std.specs.Prelude.{◌≡◌, ℕ, Some, nat_eq, refl, IfOk};
ghost use Rattle.std.specs.Ordering.{nat_cmp};
ghost use Rattle.std.specs.Cmp.{partial_equiv_from_equiv};
ghost use Rattle.std.specs.Cmp.Lexicographic.{pointwise, slice_cmp, nat_list_eq_equiv, nat_list_cmp_total, texts_po, texts_ties};
ghost use Rattle.hub_kit.specs.Targets.{IsTarget};

use crate::text::Text;
use std::alloc::{AllocError, Global};
use std::cmp::Ordering;
use std::marker::Model;

/// A URL `http://HOST:PORT`, which contracts see as the bytes of its text. Ordered by these bytes.
pub struct Target {
    text: Text,
}

impl Drop for Target {
    fn drop(self) {
        let Target { text: _ } = self;
    }
}

impl Model for Target {
    ghost use Rattle.std.specs.Prelude.{ℕ, List};
    ghost use Rattle.hub_kit.specs.Targets.{IsTarget};

    ghost Value = { List ℕ };

    ghost view = { λ t. t.text };

    ghost invariant = { λ t. IsTarget t.text };
}

impl Target {
    /// The target of a text that is a target's.
    pub(crate) fn from_text(text: Text) -> Target
        requires { IsTarget text }
        ensures { result ≡ text }
    {
        Target { text }
    }

    /// The canonical text, with the port always written.
    pub fn as_text(&self) -> &Text
        ensures value { result.now ≡ self.now }
        ensures canonical { IsTarget self.now }
    {
        &self.text
    }

    /// Another target of the same text.
    pub fn copy(&self, alloc: Global) -> Result<Target, AllocError>
        ensures { IfOk result (λ target. target ≡ self.now) }
    {
        Ok(Target {
            text: self.text.copy(alloc)?,
        })
    }
}

impl PartialEq for Target {
    ghost eq = { pointwise nat_eq };

    ghost laws = { partial_equiv_from_equiv nat_list_eq_equiv };

    fn eq(&self, other: &Self) -> bool {
        self.text == other.text
    }
}

impl Eq for Target {
    ghost laws = { nat_list_eq_equiv };
}

impl PartialOrd for Target {
    ghost partial_cmp = { λ s t. Some (slice_cmp nat_cmp s t) };

    ghost laws = { texts_po };

    fn partial_cmp(&self, other: &Self) -> Option<Ordering> {
        Some(self.cmp(other))
    }
}

impl Ord for Target {
    ghost cmp = { slice_cmp nat_cmp };

    ghost total = { nat_list_cmp_total };

    ghost matches_partial_cmp = { λ s t. refl };

    ghost matches_eq = { texts_ties };

    fn cmp(&self, other: &Self) -> Ordering {
        self.text.cmp(&other.text)
    }
}
