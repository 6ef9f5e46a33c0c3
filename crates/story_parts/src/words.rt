//! The words of a line, one after another.

use oz_container::State;
use oz_core::Node;
use oz_fields::{Block, Name, OutOfMemory};
use oz_requests::AskId;
use std::alloc::Global;

/// What is still to be read of a text, whose words stand between marks. Once a word was missing or wrong, what is read
/// is worth nothing, and the text can't be read.
#[derive(Drop)]
pub struct Words<'a> {
    rest: Option<&'a str>,
    mark: char,
    is_wrong: bool,
}

impl<'a> Words<'a> {
    pub fn new(text: &'a str, mark: char) -> Words<'a> {
        Words {
            rest: Some(text),
            mark,
            is_wrong: false,
        }
    }

    /// All of the text was read, and nothing was wrong.
    pub fn are_read(&self) -> bool {
        self.rest.is_none() && !self.is_wrong
    }

    /// What was read last isn't what may stand there.
    pub fn refuse(&mut self) {
        self.is_wrong = true;
    }

    pub fn word(&mut self) -> &'a str {
        let Some(rest) = self.rest else {
            self.is_wrong = true;
            return "";
        };
        match rest.split_once(self.mark) {
            Some((word, later)) => {
                self.rest = Some(later);
                word
            }
            None => {
                self.rest = None;
                rest
            }
        }
    }

    pub fn u64(&mut self) -> u64 {
        match self.word().parse::<u64>() {
            Ok(number) => number,
            Err(_) => {
                self.is_wrong = true;
                0
            }
        }
    }

    pub fn u32(&mut self) -> u32 {
        match u32::try_from(self.u64()) {
            Ok(number) => number,
            Err(_) => {
                self.is_wrong = true;
                0
            }
        }
    }

    pub fn u16(&mut self) -> u16 {
        match u16::try_from(self.u64()) {
            Ok(number) => number,
            Err(_) => {
                self.is_wrong = true;
                0
            }
        }
    }

    pub fn u8(&mut self) -> u8 {
        match u8::try_from(self.u64()) {
            Ok(number) => number,
            Err(_) => {
                self.is_wrong = true;
                0
            }
        }
    }

    /// The words of the next word, between these marks. `read` tells of them when they are over.
    fn parts(&mut self, mark: char) -> Words<'a> {
        Words::new(self.word(), mark)
    }

    /// These words are over, which were a word of this text.
    pub fn end(&mut self, parts: &Words<'_>) {
        if !parts.are_read() {
            self.is_wrong = true;
        }
    }

    pub fn id(&mut self) -> AskId {
        let mut parts = self.parts('.');
        let client = parts.u16();
        let line = parts.u16();
        let step = parts.u16();
        self.end(&parts);
        AskId { client, line, step }
    }

    pub fn block(&mut self) -> Block {
        let mut parts = self.parts('.');
        let container = parts.u64();
        let local = parts.u64();
        self.end(&parts);
        Block { container, local }
    }

    /// A name, which may be empty.
    pub fn name(&mut self, alloc: Global) -> Result<Name, OutOfMemory> {
        let word = self.word();
        if word.is_empty() {
            self.is_wrong = true;
        }
        Name::copy(alloc, if word == "-" { b"" } else { word.as_bytes() })
    }

    pub fn name_or_none(&mut self, alloc: Global) -> Result<Option<Name>, OutOfMemory> {
        let name = self.name(alloc)?;
        Ok(if name.bytes().is_empty() {
            None
        } else {
            Some(name)
        })
    }

    pub fn state(&mut self) -> State {
        match self.word() {
            "open" => State::Open,
            "closing" => State::Closing,
            "quasi_closed" => State::QuasiClosed,
            "closed" => State::Closed,
            "deleting" => State::Deleting,
            "deleted" => State::Deleted,
            _ => {
                self.is_wrong = true;
                State::Open
            }
        }
    }

    /// `manager`, `scm`, or a datanode as `dn2`.
    pub fn node(&mut self) -> Node {
        match self.word() {
            "manager" => Node::Manager,
            "scm" => Node::Scm,
            other => Node::Datanode(self.datanode(other)),
        }
    }

    fn datanode(&mut self, word: &str) -> u8 {
        let number = word.strip_prefix("dn").unwrap_or("");
        match number.parse::<u8>() {
            Ok(number) => number,
            Err(_) => {
                self.is_wrong = true;
                0
            }
        }
    }
}
