//! What datanodes do with blocks, told in the story: the seat beside a datanode, a noter for it, and when a datanode is
//! full.
#![tactic(auto)]

mod appending;
mod changing;
mod closing;
mod command;
mod deleting;
mod doing;
mod events;
mod filled;
mod full;
mod laws;
mod noting;
mod refusal;
mod seat;

pub use command::{DoneRefusal, NodeCommand};
pub use filled::{blocks_have_slots_of_their_own, slots_are_taken_by_blocks_or_chunks};
pub use full::{a_filled_datanode_is_full, a_journal_keeps_slots_apart};
pub use laws::{
    a_failed_disk_halts_it, a_line_has_it_run_or_not, a_line_wipes_it, a_loaded_datanode_stands,
    a_noter_stays_the_same, a_quorum_may_be_written, each_answer_is_in_the_story,
    it_stands_where_it_saw_more, its_seat_alone_tells, what_is_given_is_the_content,
    what_may_be_noted_stays, what_was_granted_came_in_the_story,
};
pub use noting::Noting;
pub use refusal::ChangeRefusal;
pub use seat::NodeSeat;
