//! What became of each id that was asked, of each line, of each client and of each datanode, to be looked up.
mod course;
mod courses;
mod keys;

pub use course::{Course, LineCourse, NodeCourse};
pub use courses::Courses;
pub use std::alloc::AllocError as OutOfMemory;
