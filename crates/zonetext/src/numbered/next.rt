// Handing on the lines of a text.
ghost use Rattle.std.specs.Prelude.{◌≡◌, ◌<◌, suc, [], ◌∷◌, length, MatchOption};
ghost use Rattle.zonetext.specs.Texts.{lines_of};
ghost use Rattle.zonetext.specs.Numbered.{lines_left, said_left, end_of, SaysNext, Shorter, Requires};

use super::Lines;
use crate::division::divide;
use crate::refusal::{Refusal, Said};
use memchr::memchr;
use names::Fault;
use std::alloc::Global;

impl<'a> Lines<'a> {
    pub fn new(text: &'a [u8]) -> Lines<'a>
        ensures lines { lines_left result ≡ lines_of text.now }
        ensures number { result.number ≡ 1 }
    {
        Lines {
            rest: text,
            number: 1,
        }
    }

    // The next line with its number, and without its line end, which the last one may lack.
    fn next_line(&mut self) -> Option<(usize, &'a [u8])>
        ensures line { MatchOption result (lines_left self.old ≡ []) (λ l. lines_left self.old ≡ l.1.now ∷ lines_left self.new) }
        ensures number { MatchOption result (self.new.number ≡ self.old.number) (λ l. (l.0 ≡ self.old.number) × (self.new.number ≡ suc self.old.number)) }
        ensures shorter { MatchOption result (self.new.rest ≡ self.old.rest) (λ l. length self.new.rest.now < length self.old.rest.now) }
    {
        if self.rest.is_empty() {
            return None;
        }
        let end = memchr(b'\n', self.rest);
        let (line, behind) = self.rest.split_at(end.unwrap_or(self.rest.len()));
        self.rest = &behind[behind.len().min(1)..];
        let number = self.number;
        self.number += 1;
        Some((number, line))
    }

    // Reads the next line that says something, divided, in the place of another; false where there is none. Blank lines are passed
    // over.
    pub fn read_said(&mut self, said: &mut Said<'a>) -> Result<bool, Refusal>
        ensures said { SaysNext (said_left self.old) result said.new (said_left self.new) (end_of self.new) self.new.number }
        ensures end { end_of self.new ≡ end_of self.old }
        ensures shorter { Shorter result self.old self.new }
    {
        while let Some((number, line)) = self.next_line() {
            Refusal::at(number, divide(line, &mut said.pieces))?;
            if !said.pieces.is_empty() {
                said.number = number;
                return Ok(true);
            }
        }
        Ok(false)
    }

    // A line that has to be there: where the text ends before it, the line behind the last one is faulty.
    pub fn required(&mut self, heap: Global) -> Result<Said<'a>, Refusal>
        ensures said { Requires (end_of self.old) (said_left self.old) result (said_left self.new) }
        ensures end { end_of self.new ≡ end_of self.old }
    {
        let mut said = Said::new(heap);
        if !self.read_said(&mut said)? {
            return Err(Refusal {
                line: self.number,
                fault: Fault::Malformed,
            });
        }
        Ok(said)
    }
}
