// The bytes that the lines of a case write.
use dump_io::{dec_u64, hex_u64};
use std::alloc::AllocError;

fn put_text(into: &mut Vec<u8>, text: &str) -> Result<(), AllocError> {
    into.extend_from_slice(text.as_bytes())
}

// Bytes in hex, with spaces between them. Returns `false` if one of them is none.
fn put_bytes(into: &mut Vec<u8>, text: &str) -> Result<bool, AllocError> {
    for word in text.split_whitespace() {
        match hex_u64(word.as_bytes()).and_then(|number| u8::try_from(number).ok()) {
            Some(byte) => into.push(byte)?,
            None => return Ok(false),
        }
    }
    Ok(true)
}

fn put_letters(into: &mut Vec<u8>, text: &str) -> Result<bool, AllocError> {
    let Some(count) = dec_u64(text.as_bytes()) else {
        return Ok(false);
    };
    for _ in 0..count {
        into.push(b'x')?;
    }
    Ok(true)
}

fn count_and_text(rest: &str) -> Option<(u64, &str)> {
    let (count, text) = rest.split_once(' ')?;
    Some((dec_u64(count.as_bytes())?, text))
}

fn put_number(into: &mut Vec<u8>, number: u64) -> Result<(), AllocError> {
    let alloc = *into.allocator();
    let text = format!(in alloc; "{number:X}")?;
    put_text(into, text.as_str())
}

// A line with this number, in whose text `@0` and `@1` stand for addresses.
fn put_numbered(into: &mut Vec<u8>, number: u64, text: &str) -> Result<(), AllocError> {
    let mut parts = text.split('@');
    put_text(into, parts.next().unwrap_or(""))?;
    for part in parts {
        if let Some(rest) = part.strip_prefix('0') {
            put_number(into, number.wrapping_mul(16))?;
            put_text(into, rest)?;
        } else if let Some(rest) = part.strip_prefix('1') {
            put_number(into, number.wrapping_mul(16).wrapping_add(16))?;
            put_text(into, rest)?;
        } else {
            put_text(into, part)?;
        }
    }
    put_text(into, "\n")
}

/// Appends what a line of a dump stands for, by the letter
/// after its sign. Returns `false` if it is no such line.
pub fn put_line(into: &mut Vec<u8>, kind: &str, rest: &str) -> Result<bool, AllocError> {
    if kind != "k" {
        return put_expected(into, kind, rest);
    }
    let Some((count, text)) = count_and_text(rest) else {
        return Ok(false);
    };
    for number in 0..count {
        put_numbered(into, number.wrapping_add(1), text)?;
    }
    Ok(true)
}

/// Appends what a line of what is expected stands for, by the letter after its sign.
pub fn put_expected(into: &mut Vec<u8>, kind: &str, rest: &str) -> Result<bool, AllocError> {
    match kind {
        "" => {
            put_text(into, rest)?;
            put_text(into, "\n")?;
        }
        "-" => put_text(into, rest)?,
        "r" => {
            put_text(into, rest)?;
            put_text(into, "\r\n")?;
        }
        "h" => return put_bytes(into, rest),
        "x" => return put_letters(into, rest),
        "k" => {
            let Some((count, text)) = count_and_text(rest) else {
                return Ok(false);
            };
            for _ in 0..count {
                put_text(into, text)?;
            }
        }
        _ => return Ok(false),
    }
    Ok(true)
}
