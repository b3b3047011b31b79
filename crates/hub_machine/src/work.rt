//! What is owed after a visit.
use hub_kit::names::ServerKey;
use hub_kit::target::Target;
use hub_kit::text::Text;
use server_life::Todo;

/// A call that is owed for a generation. The secret is the text of the server's token, which a start alone has.
#[derive(Drop)]
pub struct Work {
    pub generation: u64,
    pub server: ServerKey,
    pub target: Target,
    pub todo: Todo,
    pub secret: Option<Text>,
}
