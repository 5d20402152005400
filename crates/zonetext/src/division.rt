// A line divided into words and texts in quotes.
ghost use Rattle.std.specs.Prelude.{◌≡◌, ◌⊎◌, ◌≤◌, map, take, drop, length, MatchResult};
ghost use Rattle.names.specs.declared.fault.Fault.TheVariants.{Malformed, NoMemory};
ghost use Rattle.lines.specs.Lines.{blank, run};
ghost use Rattle.zonetext.specs.Division.{in_word, in_text, may_end, closed, worded, first_piece, read_part, pieces_of};
ghost use Rattle.zonetext.specs.Readings.{piece_of};
ghost use Rattle.zonetext.specs.Cuts.{Cuts};

use lines::{MAX_LINE, is_blank};
use memchr::memchr;
use names::Fault;

#[derive(Clone, Copy)]
pub enum Piece<'a> {
    Word(&'a [u8]),
    // What stands between two quotes.
    Text(&'a [u8]),
}

// What stands before the first semicolon that isn't in quotes; the rest is a comment.
pub fn read_part(line: &[u8]) -> &[u8]
    ensures { result.now ≡ read_part line.now }
{
    // Most lines have none.
    if memchr(b';', line).is_none() {
        return line;
    }
    let mut quoted = false;
    for (i, b) in line.iter().enumerate() {
        if *b == b';' && !quoted {
            return &line[..i];
        }
        if *b == b'"' {
            quoted = !quoted;
        }
    }
    line
}

// Can a word hold this byte? The printable ones, but no quote.
fn is_word_byte(b: u8) -> bool
    ensures { result ≡ in_word b }
{
    b.is_ascii_graphic() && b != b'"'
}

fn blanks_len(bytes: &[u8]) -> usize
    ensures value { result ≡ run blank bytes.now }
    ensures within { result ≤ length bytes.now }
{
    let end = bytes.iter().position(|b| !is_blank(*b));
    end.unwrap_or(bytes.len())
}

fn word_len(bytes: &[u8]) -> usize
    ensures value { result ≡ run in_word bytes.now }
    ensures within { result ≤ length bytes.now }
{
    let end = bytes.iter().position(|b| !is_word_byte(*b));
    end.unwrap_or(bytes.len())
}

fn text_len(bytes: &[u8]) -> usize
    ensures value { result ≡ run in_text bytes.now }
    ensures within { result ≤ length bytes.now }
{
    let end = bytes.iter().position(|b| *b == b'"');
    end.unwrap_or(bytes.len())
}

// A piece ends with the line, or before a blank.
fn may_end(rest: &[u8]) -> bool
    ensures { result ≡ may_end rest.now }
{
    match rest {
        [] => true,
        [b, ..] => is_blank(*b),
    }
}

type Cut<'a> = (Piece<'a>, &'a [u8]);

// The text behind its first quote, and what is left behind its last one.
fn cut_text(bytes: &[u8]) -> Result<Option<Cut<'_>>, Fault>
    ensures { Cuts (closed (take (run in_text bytes.now) bytes.now) (drop (run in_text bytes.now) bytes.now)) result }
{
    let (text, rest) = bytes.split_at(text_len(bytes));
    let [_, rest @ ..] = rest else {
        return Err(Fault::Malformed);
    };
    if !may_end(rest) {
        return Err(Fault::Malformed);
    }
    Ok(Some((Piece::Text(text), rest)))
}

fn cut_word(bytes: &[u8]) -> Result<Option<Cut<'_>>, Fault>
    ensures { Cuts (worded (take (run in_word bytes.now) bytes.now) (drop (run in_word bytes.now) bytes.now)) result }
{
    let (word, rest) = bytes.split_at(word_len(bytes));
    if word.is_empty() || !may_end(rest) {
        return Err(Fault::Malformed);
    }
    Ok(Some((Piece::Word(word), rest)))
}

// The first piece, if there is one, and what is left behind it.
fn first_piece(rest: &[u8]) -> Result<Option<Cut<'_>>, Fault>
    ensures { Cuts (first_piece rest.now) result }
{
    let (_, rest) = rest.split_at(blanks_len(rest));
    match rest {
        [] => Ok(None),
        [b'"', text @ ..] => cut_text(text),
        _ => cut_word(rest),
    }
}

// The pieces of a line, of which at most so many bytes are read, in the place of those of another.
pub fn divide<'a>(line: &'a [u8], pieces: &mut Vec<Piece<'a>>) -> Result<(), Fault>
    ensures { MatchResult result (λ _. pieces_of line.now ≡ Some (map piece_of pieces.new.items)) (λ f. ((pieces_of line.now ≡ None) × (f ≡ Malformed)) ⊎ (f ≡ NoMemory)) }
{
    let mut rest = read_part(line);
    if rest.len() > MAX_LINE {
        return Err(Fault::Malformed);
    }
    pieces.clear();
    while let Some((piece, after)) = first_piece(rest)? {
        pieces.push(piece)?;
        rest = after;
    }
    Ok(())
}
