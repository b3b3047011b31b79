//! The table of the hub's rows in a database of SQLite: the fixed statements on it, and what each makes of the rows.
//! `put_row` and `delete_row` carry it: their clauses say, over any rows that the table held, which rows it holds afterwards.
//! `keeper_sqlite` stands above it, and with it everything that outlives a restart.
#![tactic(auto)]

pub mod known;
pub mod rows;
pub mod schema;
pub mod statements;
