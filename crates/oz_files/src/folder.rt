//! The disks of the folder that the words of a transfer name.

ghost use Rattle.std.specs.Prelude.{ℕ, ◌≡◌, None, map, codes, vec_len, IfOk, IfSome, All, slice_get};
ghost use Rattle.std.specs.String.{string_bytes};
ghost use Rattle.oz_host.specs.file_types.words.Way.{Way as AnyWay};
ghost use Rattle.oz_host.specs.files.Words.{IsTransfer, IsTransferWith, dir_word};
ghost use Rattle.oz_command.specs.declared.paths.KeyPath.{KeyPath};
ghost use Rattle.oz_host.specs.Folder.{IsFileIn, AreNodeFilesIn};

use oz_host::{
    Disks, FileDisk, Transfer, WordsFault, disks_in, disks_without_files, read_transfer,
    words_are_one_transfer, words_of_a_transfer_have_no_fault,
};
use oz_world::OutOfMemory;
use std::alloc::{AllocError, Global};
use std::fs::File;
use std::rt::Files;

/// The disks for these words: the files of as many datanodes as they say, of the manager and of the SCM in the folder that
/// they name, or, where the words are refused, disks without files. No file is opened yet.
pub fn disks_for<'a, R: Files<File = File>>(
    rt: &'a R,
    alloc: Global,
    words: &'a [String],
) -> Result<Disks<FileDisk<'a, R>>, OutOfMemory>
    ensures manager { IsTransfer (map string_bytes words.now) →
        IfOk result (λ disks. IsFileIn (dir_word (map string_bytes words.now)) (codes "manager") disks.manager) }
    ensures scm { IsTransfer (map string_bytes words.now) →
        IfOk result (λ disks. IsFileIn (dir_word (map string_bytes words.now)) (codes "scm") disks.scm) }
    ensures nodes { IsTransfer (map string_bytes words.now) → IfOk result (λ disks. (dn : ℕ) →
        IfSome (slice_get disks.nodes.items dn)
        (λ node. AreNodeFilesIn (dir_word (map string_bytes words.now)) dn node.meta node.slots)) }
    ensures count { (way : AnyWay) (path : KeyPath) (nodes workers : ℕ) →
        IsTransferWith (map string_bytes words.now) way path nodes workers →
        IfOk result (λ disks. vec_len disks.nodes ≡ nodes) }
    ensures unopened { IfOk result (λ disks. (disks.manager.file ≡ None) × (disks.scm.file ≡ None)
        × All (λ node. (node.meta.file ≡ None) × (node.slots.file ≡ None)) disks.nodes.items) }
{
    words_are_one_transfer();
    words_of_a_transfer_have_no_fault();
    match read_transfer(alloc, words) {
        Ok(Transfer { dir, nodes, .. }) => disks_in(rt, alloc, dir, nodes),
        Err(WordsFault::At { .. }) => disks_without_files(alloc),
        Err(WordsFault::OutOfMemory) => Err(AllocError),
    }
}
