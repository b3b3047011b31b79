//! The texts in keys and fields of kept rows: names, servers, owners, shares, scopes, ids of clients and numbers.
//! `Textual` carries it: a value has one text, and the text of a value reads as that value, unless memory is wanting.
//! The texts of whole records (`record_texts`) are made of these.
#![tactic(auto)]

pub mod textual;
pub mod unread;
