//! What serves connections.
use std::alloc::Global;
use std::sync::Wait;

/// What serves one connection after the other.
pub trait Serves<I, O> {
    /// Of the server and the two sides of a connection, what they are once it was served.
    ghost served: { Self → I → O → Self → I → O → Type 0 };

    /// Serves a connection.
    fn serve<W: Wait>(&mut self, rt: &W, alloc: Global, input: &mut I, output: &mut O)
        ensures { served self.old input.old output.old self.new input.new output.new };
}
