//! The disks of the folder that the words of a run name.

ghost use Rattle.std.specs.Prelude.{List, ℕ, ◌≡◌, ◌∷◌, None, map, codes, vec_len, IfOk, IfSome, All, slice_get};
ghost use Rattle.std.specs.String.{string_bytes};
ghost use Rattle.oz_command.specs.command_line.Words.{IsRead, IsRun, IsRunWith};
ghost use Rattle.oz_host.specs.Folder.{IsFileIn, AreNodeFilesIn};

use oz_command::{Words, read_words, words_are_one_run, words_of_a_run_have_no_fault};
use oz_host::{Disks, FileDisk, disks_in, disks_without_files};
use oz_world::OutOfMemory;
use std::alloc::Global;
use std::fs::File;
use std::rt::Files;

/// The disks that words name which were read: the files of as many datanodes as they say, of the manager and of the SCM in
/// their folder.
fn disks_named<'a, R: Files<File = File>>(
    rt: &'a R,
    alloc: Global,
    words: &'a [String],
    read: Words,
) -> Result<Disks<FileDisk<'a, R>>, OutOfMemory>
    requires { IsRead (map string_bytes words.now) read }
    ensures manager { (dir : List ℕ) (options : List (List ℕ)) → map string_bytes words.now ≡ codes "run" ∷ dir ∷ options →
        IfOk result (λ disks. IsFileIn dir (codes "manager") disks.manager) }
    ensures scm { (dir : List ℕ) (options : List (List ℕ)) → map string_bytes words.now ≡ codes "run" ∷ dir ∷ options →
        IfOk result (λ disks. IsFileIn dir (codes "scm") disks.scm) }
    ensures nodes { (dir : List ℕ) (options : List (List ℕ)) → map string_bytes words.now ≡ codes "run" ∷ dir ∷ options →
        IfOk result (λ disks. (dn : ℕ) →
        IfSome (slice_get disks.nodes.items dn) (λ node. AreNodeFilesIn dir dn node.meta node.slots)) }
    ensures count { (nodes workers : ℕ) → IsRunWith (map string_bytes words.now) nodes workers →
        IfOk result (λ disks. vec_len disks.nodes ≡ nodes) }
    ensures unopened { IfOk result (λ disks. (disks.manager.file ≡ None) × (disks.scm.file ≡ None)
        × All (λ node. (node.meta.file ≡ None) × (node.slots.file ≡ None)) disks.nodes.items) }
{
    words_are_one_run();
    match read {
        Words::Run { dir, nodes, .. } => disks_in(rt, alloc, &words[dir], nodes),
    }
}

/// The disks for these words: the files of as many datanodes as they say, of the manager and of the SCM in the folder that
/// they name, or, where the words are refused, disks without files. No file is opened yet.
pub fn disks_for<'a, R: Files<File = File>>(
    rt: &'a R,
    alloc: Global,
    words: &'a [String],
) -> Result<Disks<FileDisk<'a, R>>, OutOfMemory>
    ensures manager { (dir : List ℕ) (options : List (List ℕ)) → map string_bytes words.now ≡ codes "run" ∷ dir ∷ options →
        IsRun (map string_bytes words.now) → IfOk result (λ disks. IsFileIn dir (codes "manager") disks.manager) }
    ensures scm { (dir : List ℕ) (options : List (List ℕ)) → map string_bytes words.now ≡ codes "run" ∷ dir ∷ options →
        IsRun (map string_bytes words.now) → IfOk result (λ disks. IsFileIn dir (codes "scm") disks.scm) }
    ensures nodes { (dir : List ℕ) (options : List (List ℕ)) → map string_bytes words.now ≡ codes "run" ∷ dir ∷ options →
        IsRun (map string_bytes words.now) → IfOk result (λ disks. (dn : ℕ) →
        IfSome (slice_get disks.nodes.items dn) (λ node. AreNodeFilesIn dir dn node.meta node.slots)) }
    ensures count { (nodes workers : ℕ) → IsRunWith (map string_bytes words.now) nodes workers →
        IfOk result (λ disks. vec_len disks.nodes ≡ nodes) }

    // Where the words are refused no disk has a file.
    ensures untouched { (IsRun (map string_bytes words.now) → ⊥) →
        IfOk result (λ disks. (disks.manager.place ≡ None) × (disks.scm.place ≡ None)
        × All (λ node. (node.meta.place ≡ None) × (node.slots.place ≡ None)) disks.nodes.items) }
    ensures refused_count { (IsRun (map string_bytes words.now) → ⊥) → IfOk result (λ disks. vec_len disks.nodes ≡ 3) }
    ensures unopened { IfOk result (λ disks. (disks.manager.file ≡ None) × (disks.scm.file ≡ None)
        × All (λ node. (node.meta.file ≡ None) × (node.slots.file ≡ None)) disks.nodes.items) }
{
    words_of_a_run_have_no_fault();
    match read_words(words) {
        Ok(read) => disks_named(rt, alloc, words, read),
        Err(_) => disks_without_files(alloc),
    }
}
