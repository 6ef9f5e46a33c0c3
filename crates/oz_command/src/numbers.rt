//! Numbers in words.

ghost use Rattle.std.specs.Prelude.{◌≡◌, ◌+◌, ◌-◌, ◌*◌, ◌^◌, ◌<◌, ◌≤◌, IfSome, SomeIff};
ghost use Rattle.std.specs.List.{list_all};
ghost use Rattle.oz_names.specs.Names.{is_digit};
ghost use Rattle.oz_command.specs.Numbers.{is_number, digits_value, number_in};

use crate::words::is_digit;

/// A number has at most so many digits, those in front that are 0 counted too.
pub const MOST_DIGITS: usize = 20;

/// The number that the digits of a word say, where it is one of `least` to `most`.
#[tactic(auto, unfolding(crate::specs::Numbers::number_in))]
pub fn number_in(word: &[u8], least: u64, most: u64) -> Option<u64>
    ensures exact { result ≡ number_in least most word.now }
    ensures within { IfSome result (λ number. (least ≤ number) × (number ≤ most)) }
{
    if !is_number(word) {
        return None;
    }
    let number = digits_value(word)?;
    (least <= number && number <= most).then_some(number)
}

fn is_number(word: &[u8]) -> bool
    ensures { result ≡ is_number word.now }
{
    !word.is_empty() && word.len() <= MOST_DIGITS && has_digits(word)
}

fn has_digits(word: &[u8]) -> bool
    ensures { result ≡ list_all is_digit word.now }
{
    word.iter().all(|byte| is_digit(*byte))
}

/// What digits come to, where a u64 holds it.
fn digits_value(word: &[u8]) -> Option<u64>
    ensures { SomeIff result (digits_value 0 word.now < 2 ^ 64) (digits_value 0 word.now) }
{
    let mut value = 0;
    for digit in word {
        let Some(next) = with_digit(value, *digit) else {
            return None;
        };
        value = next;
    }
    Some(value)
}

fn with_digit(before: u64, digit: u8) -> Option<u64>
    ensures { SomeIff result (10 * before + (digit - 48) < 2 ^ 64) (10 * before + (digit - 48)) }
{
    let Some(tens) = before.checked_mul(10) else {
        return None;
    };
    tens.checked_add(u64::from(digit.saturating_sub(b'0')))
}
