//! What is told of a case that doesn't hold.

use case_files::Judged;
use std::alloc::{AllocError, AllocFailed, Global};

/// Why a call gave nothing.
#[derive(Clone, Copy, Debug, PartialEq, Eq)]
pub enum Stuck {
    OutOfMemory,
    /// The case can't be read.
    Unread,
}

impl From<AllocError> for Stuck {
    fn from(_error: AllocError) -> Stuck {
        Stuck::OutOfMemory
    }
}

impl<T: Drop> From<AllocFailed<T>> for Stuck {
    fn from(_error: AllocFailed<T>) -> Stuck {
        Stuck::OutOfMemory
    }
}

/// What differs in a case, a line each, and the number of the line that is judged.
#[derive(Drop)]
pub struct Told {
    pub alloc: Global,
    pub line: u64,
    pub differs: Vec<String>,
}

impl Told {
    pub fn new(alloc: Global) -> Told {
        Told {
            alloc,
            line: 0,
            differs: Vec::new(alloc),
        }
    }

    /// Goes on to the next line.
    pub fn go_on(&mut self) {
        self.line = self.line.saturating_add(1);
    }

    /// A line came to this, and was to come to something else.
    fn tell(&mut self, line: &str, came: &str) -> Result<(), AllocError> {
        let text = format!(in self.alloc; "line {}: of \"{line}\" \"{came}\" came", self.line)?;
        self.differs.push(text)?;
        Ok(())
    }

    /// A line couldn't be gone through.
    pub fn stuck(&mut self, line: &str, why: Stuck) -> Result<(), AllocError> {
        let why = match why {
            Stuck::OutOfMemory => "out of memory",
            Stuck::Unread => "can't be read",
        };
        let text = format!(in self.alloc; "line {}: {why}: {line}", self.line)?;
        self.differs.push(text)?;
        Ok(())
    }

    /// Tells where a line didn't come to what was wanted.
    pub fn judge(
        &mut self,
        made: Result<(), Stuck>,
        line: &str,
        wanted: &str,
        came: &str,
    ) -> Result<(), AllocError> {
        match made {
            Ok(()) if wanted == came => Ok(()),
            Ok(()) => self.tell(line, came),
            Err(why) => self.stuck(line, why),
        }
    }
    /// All that was told of a case.
    pub fn judged(self) -> Judged {
        Judged {
            differs: self.differs,
            is_last: false,
        }
    }
}
