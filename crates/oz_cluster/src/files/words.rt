//! The words of a transfer.

ghost use Rattle.std.specs.Prelude.{◌≡◌, ◌∷◌, ◌≤◌, map, None, Some, codes, IfOk, IfErr, MatchOption};
ghost use Rattle.std.specs.String.{string_bytes};
ghost use Rattle.oz_cluster.specs.files.Words.{IsTransferWith, dir_word, key_word, verb_of};
ghost use Rattle.oz_cluster.specs.files.Reading.{IsFault, IsRunFault, path_of};
ghost use Rattle.oz_command.specs.Paths.{key_in};
ghost use Rattle.oz_command.specs.command_line.Words.{IsRead, IsWithinLimits};
ghost use Rattle.oz_nodes.specs.declared.nodes.TheConstants.{FEWEST_NODES, MOST_NODES};

use oz_command::{Words, read_words};
use oz_fields::OutOfMemory;
use oz_names::{Parts, split_path};
use std::alloc::Global;

/// Which way the bytes of a key go.
#[derive(Clone, Copy, Debug, PartialEq, Eq)]
pub enum Way {
    /// From the source into the key.
    Put,
    /// From the key to the sink.
    Get,
}

/// What the words of a transfer ask for.
#[derive(Clone, Copy, Debug)]
pub struct Transfer<'a> {
    pub way: Way,
    /// The folder of the disks.
    pub dir: &'a str,
    /// The word that names the key, and its parts.
    pub key: &'a str,
    pub path: Parts<'a>,
    pub nodes: u8,
    pub workers: u8,
}

/// Why words weren't read.
#[derive(Clone, Copy, Debug, PartialEq, Eq)]
pub enum WordsFault {
    /// The place, from 1, of the first word that isn't in the grammar, and one past the last where a word is missing.
    At { place: usize },
    OutOfMemory,
}

/// Reads the words of a transfer: `put` or `get`, a folder, the path of a key, `/VOLUME/BUCKET/KEY`, and the options of a
/// run.
pub fn read_transfer(alloc: Global, words: &[String]) -> Result<Transfer<'_>, WordsFault>
    ensures found { IfOk result (λ asked. IsTransferWith (map string_bytes words.now) asked.way (path_of asked.path)
        asked.nodes asked.workers) }
    ensures dir { IfOk result (λ asked. asked.dir.now ≡ dir_word (map string_bytes words.now)) }
    ensures key { IfOk result (λ asked. asked.key.now ≡ key_word (map string_bytes words.now)) }
    ensures nodes { IfOk result (λ asked. (FEWEST_NODES ≤ asked.nodes) × (asked.nodes ≤ MOST_NODES)) }
    ensures few { IfOk result (λ asked. (1 ≤ asked.workers) × (asked.workers ≤ 16)) }
    ensures fault { IfErr result (IsFault (map string_bytes words.now)) }
{
    let [verb, rest @ ..] = words else {
        return Err(WordsFault::At { place: 1 });
    };
    let Some(way) = way_of(verb.as_str()) else {
        return Err(WordsFault::At { place: 1 });
    };
    let [dir, rest @ ..] = rest else {
        return Err(WordsFault::At { place: 2 });
    };
    if dir.is_empty() {
        return Err(WordsFault::At { place: 2 });
    }
    let [key, options @ ..] = rest else {
        return Err(WordsFault::At { place: 3 });
    };
    let Some(path) = path_in(key.as_bytes()) else {
        return Err(WordsFault::At { place: 3 });
    };
    match read_options(alloc, dir.as_str(), options) {
        Ok(Words::Run { nodes, workers, .. }) => Ok(Transfer {
            way,
            dir: dir.as_str(),
            key: key.as_str(),
            path,
            nodes,
            workers,
        }),
        Err(WordsFault::At { place }) => Err(WordsFault::At { place: place + 1 }),
        Err(WordsFault::OutOfMemory) => Err(WordsFault::OutOfMemory),
    }
}

/// The way that a word names.
fn way_of(word: &str) -> Option<Way>
    ensures { MatchOption result ((way : Way) → word.now ≡ verb_of way → ⊥) (λ way. word.now ≡ verb_of way) }
{
    if word == "put" {
        return Some(Way::Put);
    }
    if word == "get" {
        return Some(Way::Get);
    }
    None
}

/// The parts of the path of a key.
#[tactic(auto, unfolding(oz_command::specs::Paths::key_in))]
fn path_in(word: &[u8]) -> Option<Parts<'_>>
    ensures { MatchOption result (key_in word.now ≡ None) (λ path. key_in word.now ≡ Some (path_of path)) }
{
    split_path(word, 3)
}

/// What a run with this folder and these options asks for.
fn read_options(alloc: Global, dir: &str, options: &[String]) -> Result<Words, WordsFault>
    ensures read { IfOk result (IsRead (codes "run" ∷ dir.now ∷ map string_bytes options.now)) }
    ensures within { IfOk result IsWithinLimits }
    ensures fault { IfErr result (IsRunFault (codes "run" ∷ dir.now ∷ map string_bytes options.now)) }
{
    let Ok(words) = words_of_run(alloc, dir, options) else {
        return Err(WordsFault::OutOfMemory);
    };
    match read_words(&words) {
        Ok(read) => Ok(read),
        Err(place) => Err(WordsFault::At { place }),
    }
}

/// The words of a run with this folder and these options.
fn words_of_run(alloc: Global, dir: &str, options: &[String]) -> Result<Vec<String>, OutOfMemory>
    ensures { IfOk result (λ words. map string_bytes words.items ≡ codes "run" ∷ dir.now ∷ map string_bytes options.now) }
{
    let mut words = Vec::new(alloc);
    words.push(String::from_str(alloc, "run")?)?;
    words.push(String::from_str(alloc, dir)?)?;
    for option in options {
        words.push(option.clone()?)?;
    }
    Ok(words)
}
