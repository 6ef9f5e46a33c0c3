//! Programs that say whether an event may follow a story. They are plain and slow, and there for tests.
#![tactic(auto)]

mod asks;
mod blocks;
mod deletion;
mod holders;
mod journal;
mod log;
mod manager;
mod nodes;
mod scm;
mod seats;
mod turns;

pub use asks::{is_of_line, is_told, line_index};
pub use blocks::{bad_is_enabled, copy_is_enabled, is_id, is_named_by, is_named_or_own};
pub use deletion::{ack_del_is_enabled, log_is_enabled, retire_is_enabled};
pub use holders::{holds, is_closed, is_member, pipeline_of, was_held};
pub use journal::{flushed_is_enabled, halt_is_enabled, swap_is_enabled};
pub use log::{came_logged, is_block, is_logged, names_block};
pub use manager::{durable_index, halt_of, last_index};
pub use nodes::{
    close_command_is_enabled, down_is_enabled, is_running, start_is_enabled, stop_is_enabled,
    up_is_enabled, wipe_is_enabled,
};
pub use scm::is_up;
pub use seats::{SCM_SEAT, is_datanode_seat, is_line_seat};
pub use turns::told_is_enabled;
