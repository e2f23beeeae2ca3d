// The report of a whole binary.
ghost use Rattle.std.specs.Prelude.{◌≡◌, take, drop};
ghost use Rattle.dump_io.specs.Sinks.{Puts};
ghost use Rattle.term_text.specs.Roots.{binary_heading, binary_report, hex_line, hex_lines, line_count};

use dump_io::{Failed, Piece, Sink, put_hex_bytes, write_all};
use report_lines::put_line;

fn put_heading<K: Sink>(sink: &mut K, addr: u64, size: u64) -> Result<(), Failed>
    ensures { Puts (K.state sink.old) (K.state sink.new) (binary_heading addr size) result }
{
    put_line(
        sink,
        b" ",
        &[
            Piece::Bytes(b"binary"),
            Piece::Hex(addr),
            Piece::Bytes(b"size"),
            Piece::Dec(size),
        ],
    )
}

fn put_hex_line<K: Sink>(sink: &mut K, bytes: &[u8]) -> Result<(), Failed>
    ensures { Puts (K.state sink.old) (K.state sink.new) (hex_line bytes.now) result }
{
    put_hex_bytes(sink, bytes)?;
    write_all(sink, b"\n")
}

// The bytes of a line, 32 or as many as are left, and those after them.
fn split_line(bytes: &[u8]) -> (&[u8], &[u8])
    ensures line { result.0.now ≡ take 32 bytes.now }
    ensures behind { result.1.now ≡ drop 32 bytes.now }
{
    if bytes.len() > 32 {
        bytes.split_at(32)
    } else {
        (bytes, b"")
    }
}

fn put_hex_lines<K: Sink>(sink: &mut K, bytes: &[u8]) -> Result<(), Failed>
    ensures { Puts (K.state sink.old) (K.state sink.new)
        (hex_lines (line_count bytes.now) bytes.now) result }
{
    let mut rest = bytes;
    while !rest.is_empty() {
        let (line, behind) = split_line(rest);
        put_hex_line(sink, line)?;
        rest = behind;
    }
    Ok(())
}

/// Writes `binary ADDR size N`, with the address in hex, and then the bytes in upper-case hex, 32 a line.
/// The last line has the 1 to 32 bytes that are left; if there are no bytes, there is no such line.
pub fn put_binary<K: Sink>(sink: &mut K, addr: u64, bytes: &[u8]) -> Result<(), Failed>
    ensures { Puts (K.state sink.old) (K.state sink.new) (binary_report addr bytes.now) result }
{
    put_heading(sink, addr, bytes.len() as u64)?;
    put_hex_lines(sink, bytes)
}
