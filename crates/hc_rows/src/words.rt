//! Words of a row, and numbers among them.

/// The number that a word spells, where it is one below 2^32.
pub fn number(word: &str) -> Option<u32> {
    word.parse::<u32>().ok()
}

/// The number that a word spells, where it is one below 2^64.
pub fn long_number(word: &str) -> Option<u64> {
    word.parse::<u64>().ok()
}

/// The numbers in front of this sign and behind it.
pub fn two_numbers(word: &str, sign: char) -> Option<(u32, u32)> {
    let (first, second) = word.split_once(sign)?;
    let first = number(first)?;
    let second = number(second)?;
    Some((first, second))
}

/// The words of a text that haven't been taken yet.
#[derive(Clone, Copy)]
pub struct Words<'a> {
    rest: &'a str,
}

impl<'a> Words<'a> {
    /// All words of the text.
    pub fn of(text: &'a str) -> Words<'a> {
        Words { rest: text }
    }

    /// Takes the next word, which is empty where there is none.
    pub fn word(&mut self) -> &'a str {
        let text = self.rest.trim_start();
        let (word, rest) = text.split_once(' ').unwrap_or((text, ""));
        self.rest = rest;
        word
    }

    /// Takes the next word, for the number that it spells, where it is one below 2^32.
    pub fn number(&mut self) -> Option<u32> {
        number(self.word())
    }

    /// Takes the next word, for the number that it spells, where it is one below 2^64.
    pub fn long_number(&mut self) -> Option<u64> {
        long_number(self.word())
    }

    /// What is behind the words that were taken.
    pub fn rest(self) -> &'a str {
        self.rest
    }
}
