//! Shares of servers, and the codes that anyone may turn into one. Each call carries it: it says exactly the share or the code of its
//! definition, or the first rule that refuses it, and changes nothing. The calls of the hub make their rows of what is given here.
#![tactic(auto)]

pub mod allowed;
pub mod codes;
pub mod granting;
pub mod lists;
