//! Cases of the manager's rows: names, rows and bodies as bytes, the tables that bodies make, and newer rows above tables.
//!
//! A statement asks for something. What is to come of it stands behind `=> `, on its line and on the lines of its block, a line
//! each. What else stands in a block is given to the call. Which statements a case has is said at the head of the file that
//! reads them: `names.rt`, `rows.rt`, `tables.rt` and `cache.rt` for cases of `names`, `rows`, `tables` and `cache`.
#![tactic(auto)]

mod again;
mod cache;
mod changes;
mod judge;
mod names;
mod plain;
mod rows;
mod shown;
mod standing;
mod swept;
mod tables;
mod told;

pub use judge::judge_rows;
