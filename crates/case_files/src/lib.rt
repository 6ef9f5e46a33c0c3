//! Case files: tests as text, which a program goes through in the order of their names.
//!
//! A file has a statement a line, of words with blanks between them. The lines beneath it that begin with two blanks are its
//! block, without these two. A line that begins with `#` is a comment, and an empty line says nothing. In a block
//! `@NAME LOW..HIGH TEXT` stands for `TEXT` with each number from LOW to HIGH in the place of `${NAME}`.
//!
//! Statements `each NAME VALUES` at the head of a file have it judged once for each value, which stands in the place of
//! `${NAME}` in all that follows; `${NAME+1}` and `${NAME-1}` stand for the numbers beside it. VALUES are numbers, and
//! ranges `LOW..HIGH` or `LOW..HIGH/STEP`. The last `each` goes through its values first.
#![tactic(auto)]

mod block;
mod bytes;
mod fill;
mod going;
mod judging;
mod statement;
mod sweep;
mod words;

pub use bytes::bytes_of;
pub use fill::filled;
pub use going::{Counts, go_through};
pub use judging::Judged;
pub use statement::{Statement, joined, statements};
pub use sweep::{Each, values_of};
pub use words::words_in;
