//! Isolation: a token that may not see a thing learns nothing of it. What it may see of a state is its users, groups, services, roles,
//! tokens of users, shares and share codes as far as its rights show them. No reply to a GET but an authorization and the proxy's routes
//! depends on anything else, apart from the revision, and from the number of live servers under `read:hub`.
#![tactic(auto)]

mod laws;

pub use laws::{
    a_token_sees_its_part, other_rows_are_not_seen, rows_stay_own, unseen_codes_may_change,
    unseen_servers_may_change, unseen_shares_may_change, unseen_tokens_may_change,
    unseen_users_may_change,
};
