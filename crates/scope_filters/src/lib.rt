//! Scopes as texts, and which objects their filters admit.
//! `read_scope` reads exactly the texts of scopes, and `scope_text` gives the one text that reads as a scope; `Filter::admits`
//! is the table of filters and objects; a `Grant` is a finite map from actions to sets of filters. `scope_expand` and `scope_meet` stand on
//! it.
#![tactic(auto)]

pub mod filter;
pub mod grant;
pub mod holder;
pub mod known;
pub mod members;
pub mod object;
pub mod scope;
