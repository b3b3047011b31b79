//! What a route keeps of an addition beside its target and its serial.
ghost use Rattle.std.specs.Prelude.{◌≡◌, IfOk, codes};

use hub_kit::text::Text;
use std::alloc::{AllocError, Global};
use std::marker::Model;

/// The text of an object that has nothing in it.
const NOTHING: &str = "{}";

/// The text of a JSON object, which contracts see as the list of its bytes. That of an empty one, which most routes have, takes no memory.
pub struct Extra {
    text: Option<Text>,
}

impl Drop for Extra {
    fn drop(self) {
        let Extra { text: _ } = self;
    }
}

impl Model for Extra {
    ghost use Rattle.std.specs.Prelude.{ℕ, List};
    ghost use Rattle.route_table.specs.Extra.{text_or_nothing};

    ghost Value = { List ℕ };

    ghost view = { λ e. text_or_nothing e.text };
}

impl Extra {
    /// The text of an empty object, which takes no memory.
    pub fn new() -> Extra
        ensures { result ≡ codes "{}" }
    {
        Extra { text: None }
    }

    /// The same bytes as a text has, in no more room than they need.
    pub fn of(alloc: Global, text: &Text) -> Result<Extra, AllocError>
        ensures { IfOk result (λ extra. extra ≡ text.now) }
    {
        if text.as_str() == NOTHING {
            return Ok(Extra::new());
        }
        Ok(Extra {
            text: Some(text.copy(alloc)?),
        })
    }

    pub fn as_bytes(&self) -> &[u8]
        ensures { result.now ≡ self.now }
    {
        match &self.text {
            Some(text) => text.as_bytes(),
            None => NOTHING.as_bytes(),
        }
    }

    /// Another one of the same bytes.
    pub fn copy(&self, alloc: Global) -> Result<Extra, AllocError>
        ensures { IfOk result (λ extra. extra ≡ self.now) }
    {
        match &self.text {
            Some(text) => Ok(Extra {
                text: Some(text.copy(alloc)?),
            }),
            None => Ok(Extra::new()),
        }
    }
}
