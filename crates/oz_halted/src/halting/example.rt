//! That a datanode that halted may have an entry more.

ghost use Rattle.oz_halted.specs.Example.{opening, bytes, script, story};
ghost use Rattle.oz_halted.specs.Missing.{LogIsNumbered};
ghost use Rattle.oz_halted.specs.halting.Example.{deleted, given, remains, was};
ghost use Rattle.oz_halted.specs.halting.Leaves.{NodeHalted};

/// In the example a datanode halted, of which a stop leaves what its events tell, or that and the transaction applied.
pub fn a_datanode_has_an_entry_more()
    ensures numbered { LogIsNumbered opening }
    ensures halted { NodeHalted opening bytes script story 0 remains }
    ensures as_told { remains was given }
    ensures with_one_more { remains deleted given }
{}
