// A line of text as owners and players write it: what is read of it, its words and its numbers.
#![tactic(auto)]

ghost use Rattle.std.specs.Prelude.{◌≡◌};
ghost use Rattle.std.specs.Iterator.{YieldsFirstRef, item_count};
ghost use Rattle.lines.specs.Classes.{words_left};
ghost use Rattle.lines.specs.Lines.{blank, read_part, words, with_digit, number_in, LineLaws};

// The most bytes of a line that are read.
pub const MAX_LINE: usize = 1200;

// What parts words: a space or a tab.
pub fn is_blank(b: u8) -> bool
    ensures { result ≡ blank b }
{
    b == b' ' || b == b'\t'
}

// What stands before the first semicolon; the rest is a comment.
pub fn read_part(line: &[u8]) -> &[u8]
    ensures { result.now ≡ read_part line.now }
{
    let end = line.iter().position(|b| *b == b';');
    &line[..end.unwrap_or(line.len())]
}

// Hands on the words of a line, each as a part of it.
#[derive(Drop)]
pub struct Words<'a> {
    rest: &'a [u8],
}

impl<'a> Words<'a> {
    pub fn new(line: &'a [u8]) -> Words<'a>
        ensures { words_left result ≡ words line.now }
    {
        Words { rest: line }
    }
}

impl<'a> Iterator for Words<'a> {
    type Item = &'a [u8];

    ghost next_gives = { YieldsFirstRef words_left };

    ghost remaining = { item_count words_left };

    fn next(&mut self) -> Option<&'a [u8]> {
        let start = self.rest.iter().position(|b| !is_blank(*b))?;
        let text = &self.rest[start..];
        let end = text.iter().position(|b| is_blank(*b));
        let (word, rest) = text.split_at(end.unwrap_or(text.len()));
        self.rest = rest;
        Some(word)
    }
}

// One digit more behind a number, if it is a digit and 64 bits hold the new number.
fn append_digit(value: u64, b: u8) -> Option<u64>
    ensures { result ≡ with_digit value b }
{
    if !b.is_ascii_digit() {
        return None;
    }
    value.checked_mul(10)?.checked_add(u64::from(b - b'0'))
}

// The number that a word of decimal digits stands for, if 64 bits hold it.
pub fn number(word: &[u8]) -> Option<u64>
    ensures { result ≡ number_in word.now }
{
    if word.is_empty() {
        return None;
    }
    let mut value: u64 = 0;
    for b in word {
        value = append_digit(value, *b)?;
    }
    Some(value)
}

pub fn line_laws()
    ensures { LineLaws }
{}
