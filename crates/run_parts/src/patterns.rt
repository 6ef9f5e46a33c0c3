//! Lines by patterns of words.

/// Whether a line has the words of a pattern, in which `*` stands for any word, and `..` at the end for any that follow.
pub fn fits(pattern: &str, line: &str) -> bool {
    let mut words = line.split(' ');
    for part in pattern.split(' ') {
        if part == ".." {
            return true;
        }
        let Some(word) = words.next() else {
            return false;
        };
        if part != "*" && part != word {
            return false;
        }
    }
    words.next().is_none()
}

/// How many lines of a text fit a pattern.
pub fn count(pattern: &str, text: &str) -> u64 {
    let mut found = 0u64;
    for line in text.lines() {
        if fits(pattern, line) {
            found = found.saturating_add(1);
        }
    }
    found
}

/// The place, from 0, of the first line of a text that fits a pattern.
pub fn place(pattern: &str, text: &str) -> Option<u64> {
    let mut at = 0u64;
    for line in text.lines() {
        if fits(pattern, line) {
            return Some(at);
        }
        at = at.saturating_add(1);
    }
    None
}
