// Bytes in hexadecimal, two digits each.
use std::alloc::Global;
use std::io;

fn digit(b: u8) -> Option<u8> {
    let value = char::from(b).to_digit(16)?;
    u8::try_from(value).ok()
}

fn byte(high: u8, low: u8) -> Option<u8> {
    Some(digit(high)?.wrapping_mul(16).wrapping_add(digit(low)?))
}

// None if they aren't digits in pairs.
pub fn bytes_in(heap: Global, digits: &[u8]) -> io::Result<Option<Vec<u8>>> {
    let mut bytes = Vec::with_capacity(heap, digits.len() / 2)?;
    for pair in digits.chunks(2) {
        let [high, low] = pair else {
            return Ok(None);
        };
        let Some(byte) = byte(*high, *low) else {
            return Ok(None);
        };
        bytes.push(byte)?;
    }
    Ok(Some(bytes))
}

// A piece without bytes is written as an empty text.
pub fn print_hex(rt: &HostRuntime, bytes: &[u8]) -> io::Result<()> {
    if bytes.is_empty() {
        return print!(rt; "\"\"");
    }
    for byte in bytes {
        print!(rt; "{byte:02x}")?;
    }
    Ok(())
}
