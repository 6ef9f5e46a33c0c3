//! What rules out what, of the words of a transfer.

ghost use Rattle.std.specs.Prelude.{◌≡◌, ℕ, List};
ghost use Rattle.oz_cluster.specs.declared.files.words.Way.{Way as AnyWay};
ghost use Rattle.oz_cluster.specs.files.Words.{IsFirstFault, IsTransfer, IsTransferWith};
ghost use Rattle.oz_command.specs.declared.paths.KeyPath.{KeyPath};

use oz_command::words_are_one_run;

/// Words that are a transfer have no fault.
pub fn words_of_a_transfer_have_no_fault()
    ensures { (words : List (List ℕ)) (place : ℕ) → IsTransfer words → IsFirstFault words place → ⊥ }
{}

/// Words that are a transfer say one number of datanodes.
pub fn words_are_one_transfer()
    ensures { (words : List (List ℕ)) (way other_way : AnyWay) (path other_path : KeyPath)
        (nodes workers other_nodes other_workers : ℕ) → IsTransferWith words way path nodes workers →
        IsTransferWith words other_way other_path other_nodes other_workers → nodes ≡ other_nodes }
{
    words_are_one_run();
}
