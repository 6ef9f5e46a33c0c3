//! That every legal story leaves an opening: a law on the definitions alone.
mod laws;

pub use laws::every_legal_story_leaves_an_opening;
