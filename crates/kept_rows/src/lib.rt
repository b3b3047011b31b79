//! What a keeper tells, read back: its rows as rows of the tables.
//! `read_rows` carries it: it gives exactly the rows that are kept so, in their order, or the kind and the key of the first that isn't the
//! row of any record. What holds across rows is for `row_rules`; the opening of a hub stands above both.
#![tactic(auto)]

pub mod reading;
