// Where headers begin within a part of the stream.
ghost use Rattle.std.specs.Prelude.{◌≡◌, ◌<◌, length};
ghost use Rattle.memchr.specs.Find.{IsFirst};
ghost use Rattle.line_source.specs.Inner.Starts.{begins_line, BeginsHeader};

use memchr::memchr;

// Whether a line begins at this place in the bytes. `begun` says whether their first line began before them.
fn begins_line(bytes: &[u8], at: usize, begun: bool) -> bool
    requires { at < length bytes.now }
    ensures { result ≡ begins_line begun bytes.now at }
{
    if at == 0 {
        !begun
    } else {
        bytes[at - 1] == b'\n'
    }
}

// The first place at which a header begins. Looks for `=`, which is rarer in a dump than LF.
pub fn header_start(bytes: &[u8], begun: bool) -> Option<usize>
    ensures { IsFirst (BeginsHeader begun bytes.now) 0 (length bytes.now) result }
{
    let mut from = 0;
    while let Some(found) = memchr(b'=', &bytes[from..]) {
        let at = from + found;
        if begins_line(bytes, at, begun) {
            return Some(at);
        }
        from = at + 1;
    }
    None
}
