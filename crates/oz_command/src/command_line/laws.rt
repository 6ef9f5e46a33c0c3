//! What rules out what, of the words of the command line.

ghost use Rattle.std.specs.Prelude.{◌≡◌, ℕ, List};
ghost use Rattle.oz_command.specs.command_line.Words.{IsRunWith, IsRun, IsFirstFault};

/// Words that are a run have no fault.
pub fn words_of_a_run_have_no_fault()
    ensures { (words : List (List ℕ)) (place : ℕ) → IsRun words → IsFirstFault words place → ⊥ }
{}

/// Words that are a run say one number of datanodes, and one of workers.
pub fn words_are_one_run()
    ensures nodes { (words : List (List ℕ)) (nodes workers other_nodes other_workers : ℕ) →
        IsRunWith words nodes workers → IsRunWith words other_nodes other_workers → nodes ≡ other_nodes }
    ensures workers { (words : List (List ℕ)) (nodes workers other_nodes other_workers : ℕ) →
        IsRunWith words nodes workers → IsRunWith words other_nodes other_workers → workers ≡ other_workers }
{}
