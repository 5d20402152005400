// Texts as they stand in the table: `\n`, `\t`, `\r` and `\\`; `\xHH` for a byte; `\+N;` for the byte before it N times more.
use std::alloc::Global;
use std::io;

// What the next byte belongs to.
#[derive(Clone, Copy)]
enum State {
    Plain,
    Escape,
    High,
    // With the digit before it.
    Low(u8),
    // With the number so far.
    Times(u16),
}

fn digit(value: Option<u32>) -> io::Result<u8> {
    let digit = value.and_then(|value| u8::try_from(value).ok());
    digit.ok_or(io::Error::other("no digit"))
}

fn hex_digit(b: u8) -> io::Result<u8> {
    digit(char::from(b).to_digit(16))
}

fn decimal_digit(b: u8) -> io::Result<u8> {
    digit(char::from(b).to_digit(10))
}

fn escaped(b: u8) -> u8 {
    match b {
        b'n' => b'\n',
        b't' => b'\t',
        b'r' => b'\r',
        _ => b,
    }
}

fn repeat_last(text: &mut Vec<u8>, times: u16) -> io::Result<()> {
    let Some(last) = text.last().copied() else {
        return Err(io::Error::other("no byte to repeat"));
    };
    for _ in 0..times {
        text.push(last)?;
    }
    Ok(())
}

fn step(text: &mut Vec<u8>, state: State, b: u8) -> io::Result<State> {
    match (state, b) {
        (State::Plain, b'\\') => return Ok(State::Escape),
        (State::Escape, b'x') => return Ok(State::High),
        (State::Escape, b'+') => return Ok(State::Times(0)),
        (State::High, _) => return Ok(State::Low(hex_digit(b)?)),
        (State::Times(times), b';') => repeat_last(text, times)?,
        (State::Times(times), _) => {
            let times = times
                .saturating_mul(10)
                .saturating_add(u16::from(decimal_digit(b)?));
            return Ok(State::Times(times));
        }
        (State::Low(high), _) => text.push(high.wrapping_mul(16).wrapping_add(hex_digit(b)?))?,
        (State::Escape, _) => text.push(escaped(b))?,
        (State::Plain, _) => text.push(b)?,
    }
    Ok(State::Plain)
}

// The bytes that a text of the table stands for.
pub fn unescape(heap: Global, line: &str) -> io::Result<Vec<u8>> {
    let mut text = Vec::new(heap);
    let mut state = State::Plain;
    for b in line.bytes() {
        state = step(&mut text, state, b)?;
    }
    Ok(text)
}
