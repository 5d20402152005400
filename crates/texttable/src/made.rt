// Texts of many sets, too long for a table, with lines behind them.
use std::alloc::Global;
use std::io;

const HEADS: &[u8] = b"top t\nnumber 1\ntimes 1 1 1\n";

const PIECE: [u8; 250] = [b't'; 250];

// The last digit alone.
fn digit(number: u64) -> u8 {
    b'0' + (number % 10) as u8
}

// So many sets, named `a0000` and so on, with these fields each.
fn text_of(heap: Global, sets: u64, fields: &[u8], lines: &[u8]) -> io::Result<Vec<u8>> {
    let mut text = Vec::from_slice(heap, HEADS)?;
    for n in 0..sets {
        let name = [
            b'a',
            digit(n / 1000),
            digit(n / 100),
            digit(n / 10),
            digit(n),
        ];
        text.extend_from_slice(b"set ")?;
        text.extend_from_slice(&name)?;
        text.extend_from_slice(fields)?;
    }
    text.extend_from_slice(lines)?;
    Ok(text)
}

// Sets without data, for the limit of sets.
pub fn many_text(heap: Global, sets: u64, lines: &[u8]) -> io::Result<Vec<u8>> {
    text_of(heap, sets, b" 3 1\n", lines)
}

// Sets with two texts of 250 bytes each, for the limit of a transfer.
pub fn heavy_text(heap: Global, sets: u64, lines: &[u8]) -> io::Result<Vec<u8>> {
    let mut fields = Vec::from_slice(heap, b" 2 1 \"")?;
    fields.extend_from_slice(&PIECE)?;
    fields.extend_from_slice(b"\" \"")?;
    fields.extend_from_slice(&PIECE)?;
    fields.extend_from_slice(b"\"\n")?;
    text_of(heap, sets, fields.as_slice(), lines)
}
