//! What is drawn of each key.

ghost use Rattle.std.specs.Prelude.{◌≡◌};
ghost use Rattle.oz_freon.specs.Drawing.{after_key, deed_from, deed_of, first_words, length_from};

use rand_core::SeedableRng;
use rand_core::utils::NextWord;
use rand_pcg::Pcg32;

/// The most bytes that a key of a generated script has.
const LONGEST_KEY: u32 = 200_000;

/// What a client does with a key once it has put it.
#[derive(Clone, Copy)]
pub enum Deed {
    Delete,
    Rename,
    Get,
    Leave,
}

/// What is drawn of one key.
#[derive(Clone, Copy)]
pub struct Drawn {
    /// How many bytes it has, 0 to 200,000.
    pub length: u32,
    pub deed: Deed,
}

/// The words that a script of this number draws from.
pub fn words_of(number: u64) -> Pcg32
    ensures { result ≡ first_words number }
{
    Pcg32::seed_from_u64(number)
}

/// Draws what is drawn of the next key: its length, and then what is done with it.
pub fn draw(words: &mut Pcg32) -> Drawn
    ensures length { result.length ≡ length_from words.old }
    ensures deed { result.deed ≡ deed_from words.old }
    ensures words { words.new ≡ after_key words.old }
{
    let length = words.next_word() % (LONGEST_KEY + 1);
    let deed = read_deed(words.next_word());
    Drawn { length, deed }
}

fn read_deed(word: u32) -> Deed
    ensures { result ≡ deed_of word }
{
    match word % 4 {
        0 => Deed::Delete,
        1 => Deed::Rename,
        2 => Deed::Get,
        _ => Deed::Leave,
    }
}
