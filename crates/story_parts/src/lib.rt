//! Openings and stories that are read from texts, for tests: a line says a thing, in words with one blank between two.
//!
//! A story has a line for an event: the seat, the event's kind, and its fields in the order of its type. An opening
//! begins with nothing, and has a line for each thing that is there. In both
//!
//! - an ask's id is `client.line.step`, a block `container.local`, a piece `container.local:length`;
//! - the items of a list stand between commas, `6*3` is `6,6,6`, and `-` is a list of nothing;
//! - a name is written as it is, and `-` is the empty name, or none where there may be none.
//!
//! A line that can't be read as a whole is an error.
#![tactic(auto)]

mod answers;
mod events;
mod items;
mod openings;
mod replies;
mod requests;
mod texts;
mod unread;
mod words;

pub use replies::reply;
pub use requests::request;
pub use texts::{opening_of, story_of};
pub use unread::Unread;
pub use words::Words;
