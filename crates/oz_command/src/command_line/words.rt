//! The words of the command line.

ghost use Rattle.std.specs.Prelude.{◌≡◌, ◌+◌, ◌<◌, ◌≤◌, map, take, length, None, IfOk, IfErr, slice_get, option_and_then};
ghost use Rattle.std.specs.String.{string_bytes};
ghost use Rattle.oz_command.specs.Numbers.{number_in};
ghost use Rattle.oz_command.specs.command_line.Words.{IsRunSaying, IsRead, IsWithinLimits, IsFirstFault};

use crate::number_in;
use oz_nodes::{FEWEST_NODES, MOST_NODES};

/// The datanodes of a run whose words don't say how many.
pub const DEFAULT_NODES: u8 = 3;

/// The workers of a run whose words don't say how many.
pub const DEFAULT_WORKERS: u8 = 4;

/// A run has at most so many workers.
pub const MOST_WORKERS: u8 = 16;

/// What the command line asks for.
#[derive(Clone, Copy, Debug, PartialEq, Eq)]
pub enum Words {
    /// A script that is run over the disks in a folder, over some datanodes and by some workers; `dir` is the place of the
    /// folder's word, from 0.
    Run { dir: usize, nodes: u8, workers: u8 },
}

/// What the options of a run say.
#[derive(Clone, Copy)]
struct Options {
    nodes: Option<u8>,
    workers: Option<u8>,
}

/// Reads the words of the command line: `run` and a folder, and behind these, perhaps, `--nodes` and a number of
/// `FEWEST_NODES` to `MOST_NODES`, and `--workers` and a number of 1 to `MOST_WORKERS`, each at most once and in either
/// order. A number has 1 to 20 decimal digits. Where the words don't say one, it is `DEFAULT_NODES` or `DEFAULT_WORKERS`.
/// The error is the place, from 1, of the first word that isn't in the grammar, and one past the last where a word is
/// missing.
pub fn read_words(words: &[String]) -> Result<Words, usize>
    ensures found { IfOk result (IsRead (map string_bytes words.now)) }
    ensures within { IfOk result IsWithinLimits }
    ensures fault { IfErr result (IsFirstFault (map string_bytes words.now)) }
{
    match words {
        [] => Err(1),
        [verb, ..] if verb.as_str() != "run" => Err(1),
        [_] => Err(2),
        [_, dir, ..] if dir.is_empty() => Err(2),
        [_, _, ..] => {
            let said = read_options(words)?;
            Ok(Words::Run {
                dir: 1,
                nodes: said.nodes.unwrap_or(DEFAULT_NODES),
                workers: said.workers.unwrap_or(DEFAULT_WORKERS),
            })
        }
    }
}

/// Reads the options behind `run` and a folder. The error is as of `read_words`.
fn read_options(words: &[String]) -> Result<Options, usize>
    requires { IsRunSaying (take 2 (map string_bytes words.now)) None None }
    ensures said { IfOk result (λ said. IsRunSaying (map string_bytes words.now) said.nodes said.workers) }
    ensures fault { IfErr result (IsFirstFault (map string_bytes words.now)) }
{
    let mut said = Options {
        nodes: None,
        workers: None,
    };
    let mut place = 2;
    while place < words.len() {
        said = with_option(said, words, place)?;
        place += 2;
    }
    Ok(said)
}

/// What the options say with the one whose name is the word at a place, from 0. The error is as of `read_words`.
fn with_option(said: Options, words: &[String], place: usize) -> Result<Options, usize>
    requires inside { place < length words.now }
    requires said { IsRunSaying (take place (map string_bytes words.now)) said.nodes said.workers }
    ensures inside { IfOk result (λ _. place + 2 ≤ length words.now) }
    ensures said { IfOk result (λ more. IsRunSaying (take (place + 2) (map string_bytes words.now)) more.nodes more.workers) }
    ensures fault { IfErr result (IsFirstFault (map string_bytes words.now)) }
{
    let name = words[place].as_str();
    if name == "--nodes" && said.nodes.is_none() {
        let Some(nodes) = number_at(words, place + 1, FEWEST_NODES, MOST_NODES as u8) else {
            return Err(place + 2);
        };
        return Ok(Options {
            nodes: Some(nodes),
            ..said
        });
    }
    if name == "--workers" && said.workers.is_none() {
        let Some(workers) = number_at(words, place + 1, 1, MOST_WORKERS) else {
            return Err(place + 2);
        };
        return Ok(Options {
            workers: Some(workers),
            ..said
        });
    }
    Err(place + 1)
}

/// The number that the word at a place, from 0, says, where it is one of `least` to `most`.
fn number_at(words: &[String], at: usize, least: u8, most: u8) -> Option<u8>
    ensures { result ≡ option_and_then (number_in least most) (slice_get (map string_bytes words.now) at) }
{
    let number = number_in(words.get(at)?.as_bytes(), u64::from(least), u64::from(most))?;
    Some(number as u8)
}
