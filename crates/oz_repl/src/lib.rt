//! What is due of a container that is being closed: the copies that its members lack and the event that comes next. What a view of it
//! has to do with a story, and what stays of it.
#![tactic(auto)]

mod repl;
mod views;
mod written;

pub use repl::{CopyOrder, View, plan, sources, step};
pub use views::{
    a_datanode_stays_away, an_empty_container_may_be_deleted, an_order_may_be_copied, closed_still,
    deleted_or_not_empty, each_command_is_for_a_line_of_its_own, logged_and_held,
    what_comes_next_is_allowed, what_is_left_may_be_left, where_nothing_comes_nothing_is_allowed,
};
pub use written::what_was_written_is_final;
