//! What two grants have in common, and what a grant is asked: whether it admits, holds anything, or holds all of another.
//! `meet` carries it: its grant admits an action on an object exactly where both grants do; `contained` names the first row of one
//! grant that another doesn't hold whole. The decisions of the hub stand on it.
#![tactic(auto)]

pub mod admitted;
pub mod asks;
pub mod groups;
pub mod inside;
pub mod meets;
pub mod text_order;
pub mod within;
