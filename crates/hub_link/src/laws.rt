//! Laws of the definitions.
ghost use Rattle.std.specs.Prelude.{◌≡◌, ℕ, List};
ghost use Rattle.hub_link.specs.Chunked.{IsInChunks};
ghost use Rattle.hub_link.specs.Replies.{IsReply};

/// Bytes are at most one reply.
pub fn reply_is_one()
    ensures { (bytes : List ℕ) (s t : ℕ) (a b : List ℕ) → IsReply bytes s a → IsReply bytes t b → (s ≡ t) × (a ≡ b) }
{}

/// Bytes are at most one reply in chunks.
pub fn chunks_are_one()
    ensures { (bytes : List ℕ) (s t : ℕ) (a b : List ℕ) → IsInChunks bytes s a → IsInChunks bytes t b → (s ≡ t) × (a ≡ b) }
{}
