//! What was loaded of the storage container manager and of the datanodes stands for the opening of the run. Laws alone.
mod laws;

pub use laws::{a_loaded_scm_stands_for_the_opening, loaded_datanodes_stand_for_the_opening};
