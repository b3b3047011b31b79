//! The life of a server, and which server has which target.
//! `life_step` answers exactly what the life table says, and `life_laws` is what follows from the table alone.
//! `Leases` keeps generations, targets and servers one to one, over the targets of a `Pool`. The hub's machine stands above both.
#![tactic(auto)]

mod by_server;
mod laws;
mod leases;
mod life;
mod ordered;
mod pool;

pub use laws::life_laws;
pub use leases::{Leases, NoTarget};
pub use life::{Life, LifeEvent, LifeRefusal, ParkedAt, Phase, Todo, entries_owed, life_step};
pub use pool::Pool;
