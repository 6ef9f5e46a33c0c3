//! The calls of an in-memory implementation, counted, and which of them fail.

ghost use Rattle.std.specs.Prelude.{◌≡◌, ◌≤◌, ◌↔◌, IsTrue};

use crate::Failed;

/// The calls of an in-memory implementation: how many there were, which of them fail, and how many failed.
#[derive(Drop)]
pub struct Calls {
    /// The numbers, from 1, of the calls that fail.
    pub fails: Vec<u64>,
    pub made: u64,
    pub faults: u64,
}

impl Calls {
    ghost use Rattle.oz_world.specs.Calls.{raised, IsToFail};

    pub fn new(fails: Vec<u64>) -> Calls
        ensures fails { result.fails ≡ fails }
        ensures made { result.made ≡ 0 }
        ensures faults { result.faults ≡ 0 }
    {
        Calls {
            fails,
            made: 0,
            faults: 0,
        }
    }

    /// Counts a call, and answers whether it is to fail.
    pub fn count(&mut self) -> bool
        ensures refused { IsTrue result ↔ IsToFail self.old }
        ensures made { self.new.made ≡ raised self.old.made }
        ensures faults { self.new.faults ≡ self.old.faults }
        ensures fails { self.new.fails ≡ self.old.fails }
    {
        self.made = self.made.saturating_add(1);
        self.fails.contains(&self.made)
    }

    /// Counts a fault.
    pub fn fail(&mut self) -> Failed
        ensures made { self.new.made ≡ self.old.made }
        ensures faults { self.new.faults ≡ raised self.old.faults }
        ensures rises { self.old.faults ≤ self.new.faults }
        ensures fails { self.new.fails ≡ self.old.fails }
    {
        self.faults = self.faults.saturating_add(1);
        Failed
    }
}
