// One line of a script for `valley`: `zone FILE`, `copy SERVER NAME`, `ask ASKER NAME KIND`, `bring N` or `tick`.
#![tactic(auto)]

ghost use Rattle.std.specs.Prelude.{◌≡◌};
ghost use Rattle.lines.specs.Classes.{words_left};
ghost use Rattle.names.specs.Names.{given};
ghost use Rattle.records.specs.Numbers.{kind_given};
ghost use Rattle.script.specs.Commands.{command_of, Reads};
ghost use Rattle.script.specs.Laws.{ScriptLaws};
ghost use Rattle.script.specs.Grammar.{place_in, kind_in, meaning, line_meaning, tick_of, zone_of, bring_of, copy_of, ask_of};

use lines::{MAX_LINE, Words, number, read_part};
use names::{Fault, Name};
use records::Kind;
use std::alloc::Global;

// The most servers, askers and boxes that a script plays; boxes are counted behind the askers.
pub const MAX_SERVER: u64 = 4;

pub const MAX_ASKER: u64 = 12;

#[derive(Drop)]
pub enum Command {
    // A blank line, or only a comment.
    Nothing,
    Zone { file: Vec<u8> },
    Copy { server: u64, name: Name },
    Ask { asker: u64, name: Name, kind: Kind },
    Bring { packet: u64 },
    Tick,
}

// A number from 1 to the most.
fn place(word: &[u8], most: u64) -> Option<u64>
    ensures { result ≡ place_in most word.now }
{
    number(word).filter(|n| (1..=most).contains(n))
}

fn read_kind(word: &[u8]) -> Result<Kind, Fault>
    ensures { kind_given result ≡ kind_in word.now }
{
    // Here and below a reader's answer is taken apart by `let .. else`, as the project wants it, and not by `ok_or` and `?`.
    let Some(number) = number(word) else {
        return Err(Fault::BadName);
    };
    let Ok(number) = u8::try_from(number) else {
        return Err(Fault::BadName);
    };
    Kind::try_from(number)
}

fn read_tick(mut words: Words) -> Result<Command, Fault>
    ensures { Reads (tick_of (words_left words.entry)) result }
{
    let None = words.next() else {
        return Err(Fault::Malformed);
    };
    Ok(Command::Tick)
}

fn read_zone(heap: Global, mut words: Words) -> Result<Command, Fault>
    ensures { Reads (zone_of (words_left words.entry)) result }
{
    let Some(file) = words.next() else {
        return Err(Fault::Malformed);
    };
    let None = words.next() else {
        return Err(Fault::Malformed);
    };
    let file = Vec::from_slice(heap, file)?;
    Ok(Command::Zone { file })
}

fn read_bring(mut words: Words) -> Result<Command, Fault>
    ensures { Reads (bring_of (words_left words.entry)) result }
{
    let Some(packet) = words.next() else {
        return Err(Fault::Malformed);
    };
    let None = words.next() else {
        return Err(Fault::Malformed);
    };
    let Some(packet) = number(packet) else {
        return Err(Fault::Malformed);
    };
    Ok(Command::Bring { packet })
}

fn read_copy(mut words: Words) -> Result<Command, Fault>
    ensures { Reads (copy_of (words_left words.entry)) result }
{
    let Some(server) = words.next() else {
        return Err(Fault::Malformed);
    };
    let Some(name) = words.next() else {
        return Err(Fault::Malformed);
    };
    let None = words.next() else {
        return Err(Fault::Malformed);
    };
    let Some(server) = place(server, MAX_SERVER) else {
        return Err(Fault::Malformed);
    };
    let name = Name::read_whole(name)?;
    Ok(Command::Copy { server, name })
}

fn read_ask(mut words: Words) -> Result<Command, Fault>
    ensures { Reads (ask_of (words_left words.entry)) result }
{
    let Some(asker) = words.next() else {
        return Err(Fault::Malformed);
    };
    let Some(name) = words.next() else {
        return Err(Fault::Malformed);
    };
    let Some(kind) = words.next() else {
        return Err(Fault::Malformed);
    };
    let None = words.next() else {
        return Err(Fault::Malformed);
    };
    let Some(asker) = place(asker, MAX_ASKER) else {
        return Err(Fault::Malformed);
    };
    let name = Name::read_whole(name)?;
    let kind = read_kind(kind)?;
    Ok(Command::Ask { asker, name, kind })
}

fn read_words(heap: Global, mut words: Words) -> Result<Command, Fault>
    ensures { Reads (meaning (words_left words.entry)) result }
{
    let Some(verb) = words.next() else {
        return Ok(Command::Nothing);
    };
    match verb {
        b"tick" => read_tick(words),
        b"zone" => read_zone(heap, words),
        b"bring" => read_bring(words),
        b"copy" => read_copy(words),
        b"ask" => read_ask(words),
        _ => Err(Fault::Malformed),
    }
}

// The command of a line, which is handed over without its line end.
pub fn read_command(heap: Global, line: &[u8]) -> Result<Command, Fault>
    ensures { Reads (line_meaning line.now) result }
{
    let line = read_part(line);
    if line.len() > MAX_LINE {
        return Err(Fault::Malformed);
    }
    read_words(heap, Words::new(line))
}

pub fn script_laws()
    ensures { ScriptLaws }
{}
