//! What a view of a container has to do with a story: laws on the definitions alone.
mod laws;

pub use laws::{
    a_datanode_stays_away, an_empty_container_may_be_deleted, an_order_may_be_copied, closed_still,
    deleted_or_not_empty, each_command_is_for_a_line_of_its_own, logged_and_held,
    what_comes_next_is_allowed, what_is_left_may_be_left, where_nothing_comes_nothing_is_allowed,
};
