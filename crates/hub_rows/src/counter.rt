//! Which numbers have a next one.
ghost use Rattle.std.specs.Prelude.{◌≡◌, Some, None, codes, IfOk, IsTrue, if◌then◌else◌};
ghost use Rattle.hub_rows.specs.Counters.{is_counter};

use hub_kit::text::Text;
use std::alloc::{AllocError, Global};
use std::marker::Model;

/// `code`, `generation` or `token`, which contracts see as that text.
pub struct Counter {
    text: Text,
}

impl Drop for Counter {
    fn drop(self) {
        let Counter { text: _ } = self;
    }
}

impl Model for Counter {
    ghost use Rattle.std.specs.Prelude.{ℕ, List, IsTrue};
    ghost use Rattle.hub_rows.specs.Counters.{is_counter};

    ghost Value = { List ℕ };

    ghost view = { λ c. c.text };

    ghost invariant = { λ c. IsTrue (is_counter c.text) };
}

impl Counter {
    /// The number of tokens.
    pub fn token(alloc: Global) -> Result<Counter, AllocError>
        ensures { IfOk result (λ counter. counter ≡ codes "token") }
    {
        Ok(Counter {
            text: Text::from_str(alloc, "token")?,
        })
    }

    /// The counter of a text that is one's. Takes no memory.
    pub fn from_text(text: Text) -> Option<Counter>
        ensures { result ≡ (if is_counter text then Some text else None) }
    {
        if is_counter(text.as_str()) {
            return Some(Counter { text });
        }
        None
    }

    pub fn as_text(&self) -> &Text
        ensures value { result.now ≡ self.now }
        ensures counter { IsTrue (is_counter self.now) }
    {
        &self.text
    }

    pub fn copy(&self, alloc: Global) -> Result<Counter, AllocError>
        ensures { IfOk result (λ counter. counter ≡ self.now) }
    {
        Ok(Counter {
            text: self.text.copy(alloc)?,
        })
    }
}

fn is_counter(name: &str) -> bool
    ensures { result ≡ is_counter name.now }
{
    name == "code" || name == "generation" || name == "token"
}
