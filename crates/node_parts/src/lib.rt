//! Cases of what datanodes and the storage container manager keep, over disks in memory: a journal, a datanode, and the manager
//! itself; and of the states of containers, of pipelines, and of the log of deleted blocks.
//!
//! A case begins with the word `journal`, `datanode`, `scm`, `containers`, `nodes` or `logs`. In the block of `calls` a call stands on a line,
//! with what it gives behind ` => `; a call that gives nothing has nothing behind it. Cases of the last four have nothing but calls.
//!
//! In those of a journal and of a datanode the block of `steps FAULT` has lines with a third part behind one more
//! ` => `: what is held after the call. A disk that fails ends them: that call gives the words FAULT, and what was held before it
//! is held. `first NUMBER` takes so many of the steps that follow. `leaves` asks what is held on a disk as each stop at this moment
//! may leave it: what was held after the last step, or, where that one failed, what was held before it or would be after it.
#![tactic(auto)]

mod calls;
mod containers;
mod drive;
mod going;
mod journal;
mod logs;
mod node;
mod node_calls;
mod nodes;
mod own;
mod scm;
mod told;
mod words;

pub use containers::judge_containers;
pub use journal::judge_journal;
pub use logs::judge_logs;
pub use node::judge_datanode;
pub use nodes::judge_nodes;
pub use scm::judge_scm;
