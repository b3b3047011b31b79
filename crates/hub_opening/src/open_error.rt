//! Why a book isn't opened.
use hub_kit::target::Target;
use hub_kit::text::Text;
use std::fmt;

/// Why a book isn't opened.
#[derive(Drop)]
pub enum OpenError {
    /// The keeper failed, which its count tells.
    KeeperFault,
    /// The first kept row that doesn't read, by its kind and key: first each row by itself, then by the rules across rows.
    BadRow { kind: u8, key: Text },
    /// The target of the first kept lease, in the order of targets, that isn't in the pool.
    LostTarget(Target),
    /// The first kind, by its number, that would have more rows than its limit.
    Full { kind: u8, limit: u32 },
    Memory,
}

/// What the rows of a kind are of.
fn kind_name(kind: u8) -> &'static str {
    match kind {
        1 => "user",
        2 => "group",
        3 => "service",
        4 => "role",
        5 => "token",
        6 => "server",
        7 => "lease",
        8 => "share",
        9 => "share code",
        10 => "OAuth client",
        11 => "OAuth code",
        12 => "next number",
        _ => "unknown",
    }
}

impl fmt::Display for OpenError {
    fn fmt<W: fmt::Write>(&self, f: &mut fmt::Formatter<W>) -> fmt::Result {
        match self {
            OpenError::KeeperFault => write!(f, "the store failed while the hub was opened"),
            OpenError::BadRow { kind, key } => {
                let (name, key) = (kind_name(*kind), key.as_str());
                write!(
                    f,
                    "the kept row of kind {kind} ({name}) and key {key} doesn't read, or doesn't fit the others"
                )
            }
            OpenError::LostTarget(target) => {
                let target = target.as_text().as_str();
                write!(
                    f,
                    "a kept server holds the target {target}, which isn't in the pool"
                )
            }
            OpenError::Full { kind, limit } => {
                let name = kind_name(*kind);
                write!(
                    f,
                    "there would be more rows of kind {kind} ({name}) than the limit {limit}"
                )
            }
            OpenError::Memory => write!(f, "there is no memory to open the hub"),
        }
    }
}
