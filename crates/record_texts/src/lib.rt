//! The texts of records: each row of the twelve kinds as a row of a keeper, and back.
//! `row_of` and `of_row` carry it: a row reads exactly where it is the row of a record, and then as that record.
//! The machine of the hub commits its changes by `item_of`; an opening reads them back through `kept_rows`, users, tokens and servers by
//! `known_form` where that sees at once what they are.
#![tactic(auto)]

mod cut;
mod field;
mod fields;
pub mod item;
pub mod known_form;
mod people;
pub mod record;
mod servers;
mod tokens;
mod whole;
