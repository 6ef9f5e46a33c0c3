//! The words of a line.

ghost use Rattle.std.specs.Prelude.{◌≡◌, [], ◌∷◌, ◌||◌, not, MatchOption, None, Some};
ghost use Rattle.std.specs.List.{list_all, position};
ghost use Rattle.oz_names.specs.Names.{is_digit, is_letter};
ghost use Rattle.oz_command.specs.Words.{is_blank, is_visible, is_client_name, only, words};

/// The longest name of a client, in bytes, and the longest label.
pub const LONGEST_CLIENT: usize = 16;

/// The first word, and what stands behind it.
pub fn split_word(line: &[u8]) -> Option<(&[u8], &[u8])>
    ensures { MatchOption result (words line.now ≡ [])
        (λ parts. words line.now ≡ parts.0.now ∷ words parts.1.now) }
{
    let Some(start) = word_in(line) else {
        return None;
    };
    let (_, line) = line.split_at(start);
    let end = blank_in(line).unwrap_or(line.len());
    Some(line.split_at(end))
}

fn word_in(line: &[u8]) -> Option<usize>
    ensures { result ≡ position (λ byte. not (is_blank byte)) line.now }
{
    line.iter().position(|byte| !is_blank(*byte))
}

fn blank_in(line: &[u8]) -> Option<usize>
    ensures { result ≡ position is_blank line.now }
{
    line.iter().position(|byte| is_blank(*byte))
}

fn is_blank(byte: u8) -> bool
    ensures { result ≡ is_blank byte }
{
    byte == b' ' || byte == b'\t'
}

/// The one word, where there is one and no other.
pub fn only_word(line: &[u8]) -> Option<&[u8]>
    ensures { MatchOption result (only (words line.now) ≡ None) (λ word. only (words line.now) ≡ Some word.now) }
{
    let Some((word, rest)) = split_word(line) else {
        return None;
    };
    if split_word(rest).is_some() {
        return None;
    }
    Some(word)
}

/// Blanks and the bytes of words, and nothing else.
pub fn is_of_words(line: &[u8]) -> bool
    ensures { result ≡ list_all (λ byte. is_blank byte || is_visible byte) line.now }
{
    line.iter()
        .all(|byte| is_blank(*byte) || byte.is_ascii_graphic())
}

/// Clients and labels are named alike.
pub fn is_client_name(name: &[u8]) -> bool
    ensures { result ≡ is_client_name name.now }
{
    !name.is_empty() && name.len() <= LONGEST_CLIENT && has_client_bytes(name)
}

fn has_client_bytes(name: &[u8]) -> bool
    ensures { result ≡ list_all (λ byte. is_letter byte || is_digit byte) name.now }
{
    name.iter().all(|byte| is_letter(*byte) || is_digit(*byte))
}

pub(crate) fn is_digit(byte: u8) -> bool
    ensures { result ≡ is_digit byte }
{
    byte.is_ascii_digit()
}

fn is_letter(byte: u8) -> bool
    ensures { result ≡ is_letter byte }
{
    byte.is_ascii_lowercase()
}
