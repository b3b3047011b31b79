//! Laws of chunked bodies.
ghost use Rattle.std.specs.Prelude.{◌++◌, ℕ, List};
ghost use Rattle.chunk_parts.specs.Chunks.{BreaksChunks, HasNoChunked};

/// Bytes that break a chunked body begin none, whatever follows.
pub fn broken_is_none()
    ensures { (bytes more : List ℕ) → BreaksChunks bytes → HasNoChunked (bytes ++ more) }
{}
