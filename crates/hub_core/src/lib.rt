//! The hub as a machine: what it answers to an asked call at a moment, and what that leaves.
//! The contract of `Book::visit` carries it: each visit gives the answer that the rules define in the book's state, and notes
//! its change; that of `Book::life` takes what came of the calls that servers owe. Connections ask at a desk by the job `Ask`, and
//! take outcomes there by the jobs of `server_work`. What a visitor has beside the book, its devices (`kit`), and what is known of them
//! (`specs/Views.antt`) stand here too.
#![tactic(auto)]

pub mod ask;
pub mod book;
mod caller;
mod decide;
mod dispatch;
mod holding;
pub mod kit;
mod laws;
pub mod life_book;
pub mod live;
mod need;
mod needs;
mod stamps;
pub mod start;

pub use laws::{a_call_has_one_answer, a_removed_token_stays_refused, entries_lead_to_one_state};
