// Heads: what a term is, apart from the terms after it.
ghost use Rattle.std.specs.Prelude.{◌≡◌, ◌≤◌, ◌^◌};
ghost use Rattle.etf_terms.specs.Heads.{Small, Int, Atom, Tuple, Chars, Linked, Bin, Pairs, kids};
ghost use Rattle.etf_terms.specs.Inner.Parts.{Gives, head, headed, byte_of, run_of, number2_of, number4_of, number8_of, sized1_of, sized2_of, sized4_of, atom_of, small_of, integer_of, creation_of, pid_with_of, pid_of, sign_of, part_of, float_of, bits_of, port_with_of, port120_of, ref_with_of, big_of, small_big_of, large_big_of, owner_of, closure_of, export_of, head_of};

/// A head, as a part of the bytes from which it was read; `specs/Heads.antt` says what the fields are.
#[derive(Clone, Copy)]
pub(crate) enum HeadRead<'a> {
    Float(&'a [u8]),
    Bits(u8, &'a [u8]),
    Pid(&'a [u8], u32, u32, u32),
    Port(&'a [u8], u64, u32),
    Ref(&'a [u8], u32, &'a [u8]),
    Small(u8),
    Int(u32),
    Atom(&'a [u8]),
    Tuple(u32),
    Nil,
    Chars(&'a [u8]),
    Linked(u32),
    Bin(&'a [u8]),
    Big(u8, &'a [u8]),
    Fun(&'a [u8], u32, u8, u32),
    Export(&'a [u8], &'a [u8], u8),
    Pairs(u32),
}

// What a reader took and what follows. It stands for `?`, which would
// also convert the error: that is a number here, and needs no conversion.
macro_rules! taken {
    ($read:expr) => {
        match $read {
            Ok(found) => found,
            Err(left) => return Err(left),
        }
    };
}

// Each reader takes what it reads off the front, or returns how
// many bytes are left from the first that isn't allowed there.
#[tactic(auto, unfolding(crate::specs::Inner::Parts::byte_of))]
fn byte(bytes: &[u8]) -> Result<(u8, &[u8]), usize>
    ensures { Gives (λ x. (x.0, x.1.now)) result (byte_of bytes.now) }
{
    match bytes {
        [] => Err(0),
        [b, rest @ ..] => Ok((*b, rest)),
    }
}

#[tactic(auto, unfolding(crate::specs::Inner::Parts::run_of))]
fn run(bytes: &[u8], n: usize) -> Result<(&[u8], &[u8]), usize>
    ensures { Gives (λ x. (x.0.now, x.1.now)) result (run_of n bytes.now) }
{
    if n <= bytes.len() {
        Ok(bytes.split_at(n))
    } else {
        Err(0)
    }
}

#[tactic(auto, unfolding(crate::specs::Inner::Parts::number2_of, crate::specs::Inner::Parts::run_of))]
fn number2(bytes: &[u8]) -> Result<(u16, &[u8]), usize>
    ensures { Gives (λ x. (x.0, x.1.now)) result (number2_of bytes.now) }
{
    if 2 <= bytes.len() {
        let (front, rest) = bytes.split_at(2);
        Ok((u16::from_be_bytes([front[0], front[1]]), rest))
    } else {
        Err(0)
    }
}

#[tactic(auto, unfolding(crate::specs::Inner::Parts::number4_of, crate::specs::Inner::Parts::run_of))]
pub(crate) fn number4(bytes: &[u8]) -> Result<(u32, &[u8]), usize>
    ensures { Gives (λ x. (x.0, x.1.now)) result (number4_of bytes.now) }
{
    if 4 <= bytes.len() {
        let (front, rest) = bytes.split_at(4);
        Ok((
            u32::from_be_bytes([front[0], front[1], front[2], front[3]]),
            rest,
        ))
    } else {
        Err(0)
    }
}

#[tactic(auto, unfolding(crate::specs::Inner::Parts::number8_of, crate::specs::Inner::Parts::run_of))]
fn number8(bytes: &[u8]) -> Result<(u64, &[u8]), usize>
    ensures { Gives (λ x. (x.0, x.1.now)) result (number8_of bytes.now) }
{
    if 8 <= bytes.len() {
        let (front, rest) = bytes.split_at(8);
        Ok((
            u64::from_be_bytes([
                front[0], front[1], front[2], front[3], front[4], front[5], front[6], front[7],
            ]),
            rest,
        ))
    } else {
        Err(0)
    }
}

#[tactic(auto, unfolding(crate::specs::Inner::Parts::sized1_of))]
fn sized1(bytes: &[u8]) -> Result<(&[u8], &[u8]), usize>
    ensures { Gives (λ x. (x.0.now, x.1.now)) result (sized1_of bytes.now) }
{
    let (n, rest) = taken!(byte(bytes));
    run(rest, n as usize)
}

#[tactic(auto, unfolding(crate::specs::Inner::Parts::sized2_of))]
fn sized2(bytes: &[u8]) -> Result<(&[u8], &[u8]), usize>
    ensures { Gives (λ x. (x.0.now, x.1.now)) result (sized2_of bytes.now) }
{
    let (n, rest) = taken!(number2(bytes));
    run(rest, n as usize)
}

#[tactic(auto, unfolding(crate::specs::Inner::Parts::sized4_of))]
fn sized4(bytes: &[u8]) -> Result<(&[u8], &[u8]), usize>
    ensures { Gives (λ x. (x.0.now, x.1.now)) result (sized4_of bytes.now) }
{
    let (n, rest) = taken!(number4(bytes));
    run(rest, n as usize)
}

// A term of tag 100, 115, 118 or 119.
#[tactic(auto, unfolding(crate::specs::Inner::Parts::atom_of))]
fn atom(bytes: &[u8]) -> Result<(&[u8], &[u8]), usize>
    ensures { Gives (λ x. (x.0.now, x.1.now)) result (atom_of bytes.now) }
{
    match bytes {
        [] => Err(0),
        [100, rest @ ..] => sized2(rest),
        [115, rest @ ..] => sized1(rest),
        [118, rest @ ..] => sized2(rest),
        [119, rest @ ..] => sized1(rest),
        [_, ..] => Err(bytes.len()),
    }
}

// A term of tag 97.
#[tactic(auto, unfolding(crate::specs::Inner::Parts::small_of))]
fn small(bytes: &[u8]) -> Result<(u8, &[u8]), usize>
    ensures { Gives (λ x. (x.0, x.1.now)) result (small_of bytes.now) }
{
    match bytes {
        [] => Err(0),
        [97, rest @ ..] => byte(rest),
        [_, ..] => Err(bytes.len()),
    }
}

// A term of tag 97 or 98.
#[tactic(auto, unfolding(crate::specs::Inner::Parts::integer_of))]
fn integer(bytes: &[u8]) -> Result<(&[u8], &[u8]), usize>
    ensures { Gives (λ x. (x.0.now, x.1.now)) result (integer_of bytes.now) }
{
    match bytes {
        [] => Err(0),
        [97, rest @ ..] => run(rest, 1),
        [98, rest @ ..] => run(rest, 4),
        [_, ..] => Err(bytes.len()),
    }
}

// A number in four bytes, or in one.
#[tactic(auto, unfolding(crate::specs::Inner::Parts::creation_of))]
fn creation(bytes: &[u8], wide: bool) -> Result<(u32, &[u8]), usize>
    ensures { Gives (λ x. (x.0, x.1.now)) result (creation_of wide bytes.now) }
{
    if wide {
        return number4(bytes);
    }
    let (creation, rest) = taken!(byte(bytes));
    Ok((creation as u32, rest))
}

// What follows tag 88 or 103, which differ in how the creation is written.
#[tactic(auto, unfolding(crate::specs::Inner::Parts::pid_with_of))]
fn pid_with(bytes: &[u8], wide: bool) -> Result<(HeadRead<'_>, &[u8]), usize>
    ensures { Gives (λ x. (head x.0, x.1.now)) result (pid_with_of wide bytes.now) }
{
    let (name, rest) = taken!(atom(bytes));
    let (id, rest) = taken!(number4(rest));
    let (serial, rest) = taken!(number4(rest));
    let (creation, rest) = taken!(creation(rest, wide));
    Ok((HeadRead::Pid(name, id, serial, creation), rest))
}

// A term of tag 88 or 103.
#[tactic(auto, unfolding(crate::specs::Inner::Parts::pid_of))]
fn pid(bytes: &[u8]) -> Result<(HeadRead<'_>, &[u8]), usize>
    ensures { Gives (λ x. (head x.0, x.1.now)) result (pid_of bytes.now) }
{
    match bytes {
        [] => Err(0),
        [88, rest @ ..] => pid_with(rest, true),
        [103, rest @ ..] => pid_with(rest, false),
        [_, ..] => Err(bytes.len()),
    }
}

// 0 or 1.
#[tactic(auto, unfolding(crate::specs::Inner::Parts::sign_of))]
fn sign(bytes: &[u8]) -> Result<(u8, &[u8]), usize>
    ensures { Gives (λ x. (x.0, x.1.now)) result (sign_of bytes.now) }
{
    match bytes {
        [] => Err(0),
        [b, rest @ ..] => {
            if *b <= 1 {
                Ok((*b, rest))
            } else {
                Err(bytes.len())
            }
        }
    }
}

// From 1 to 8.
#[tactic(auto, unfolding(crate::specs::Inner::Parts::part_of))]
fn part(bytes: &[u8]) -> Result<(u8, &[u8]), usize>
    ensures { Gives (λ x. (x.0, x.1.now)) result (part_of bytes.now) }
{
    match bytes {
        [] => Err(0),
        [b, rest @ ..] => {
            if 1 <= *b && *b <= 8 {
                Ok((*b, rest))
            } else {
                Err(bytes.len())
            }
        }
    }
}

#[tactic(auto, unfolding(crate::specs::Inner::Parts::float_of))]
fn float(bytes: &[u8]) -> Result<(HeadRead<'_>, &[u8]), usize>
    ensures { Gives (λ x. (head x.0, x.1.now)) result (float_of bytes.now) }
{
    let (eight, rest) = taken!(run(bytes, 8));
    Ok((HeadRead::Float(eight), rest))
}

#[tactic(auto, unfolding(crate::specs::Inner::Parts::bits_of))]
fn bits(bytes: &[u8]) -> Result<(HeadRead<'_>, &[u8]), usize>
    ensures { Gives (λ x. (head x.0, x.1.now)) result (bits_of bytes.now) }
{
    let (n, rest) = taken!(number4(bytes));
    let (b, rest) = taken!(part(rest));
    let (found, rest) = taken!(run(rest, n as usize));
    Ok((HeadRead::Bits(b, found), rest))
}

// What follows tag 89 or 102, which differ in how the creation is written.
#[tactic(auto, unfolding(crate::specs::Inner::Parts::port_with_of))]
fn port_with(bytes: &[u8], wide: bool) -> Result<(HeadRead<'_>, &[u8]), usize>
    ensures { Gives (λ x. (head x.0, x.1.now)) result (port_with_of wide bytes.now) }
{
    let (name, rest) = taken!(atom(bytes));
    let (id, rest) = taken!(number4(rest));
    let (creation, rest) = taken!(creation(rest, wide));
    Ok((HeadRead::Port(name, id as u64, creation), rest))
}

#[tactic(auto, unfolding(crate::specs::Inner::Parts::port120_of))]
fn port120(bytes: &[u8]) -> Result<(HeadRead<'_>, &[u8]), usize>
    ensures { Gives (λ x. (head x.0, x.1.now)) result (port120_of bytes.now) }
{
    let (name, rest) = taken!(atom(bytes));
    let (id, rest) = taken!(number8(rest));
    let (creation, rest) = taken!(number4(rest));
    Ok((HeadRead::Port(name, id, creation), rest))
}

// What follows tag 90 or 114, which differ in how the creation is written.
#[tactic(auto, unfolding(crate::specs::Inner::Parts::ref_with_of))]
fn ref_with(bytes: &[u8], wide: bool) -> Result<(HeadRead<'_>, &[u8]), usize>
    ensures { Gives (λ x. (head x.0, x.1.now)) result (ref_with_of wide bytes.now) }
{
    let (n, rest) = taken!(number2(bytes));
    let (name, rest) = taken!(atom(rest));
    let (creation, rest) = taken!(creation(rest, wide));
    let (words, rest) = taken!(run(rest, 4 * n as usize));
    Ok((HeadRead::Ref(name, creation, words), rest))
}

// The sign of a big number and its digits.
#[tactic(auto, unfolding(crate::specs::Inner::Parts::big_of))]
fn big(bytes: &[u8], n: usize) -> Result<(HeadRead<'_>, &[u8]), usize>
    ensures { Gives (λ x. (head x.0, x.1.now)) result (big_of n bytes.now) }
{
    let (s, rest) = taken!(sign(bytes));
    let (digits, rest) = taken!(run(rest, n));
    Ok((HeadRead::Big(s, digits), rest))
}

#[tactic(auto, unfolding(crate::specs::Inner::Parts::small_big_of))]
fn small_big(bytes: &[u8]) -> Result<(HeadRead<'_>, &[u8]), usize>
    ensures { Gives (λ x. (head x.0, x.1.now)) result (small_big_of bytes.now) }
{
    let (n, rest) = taken!(byte(bytes));
    big(rest, n as usize)
}

#[tactic(auto, unfolding(crate::specs::Inner::Parts::large_big_of))]
fn large_big(bytes: &[u8]) -> Result<(HeadRead<'_>, &[u8]), usize>
    ensures { Gives (λ x. (head x.0, x.1.now)) result (large_big_of bytes.now) }
{
    let (n, rest) = taken!(number4(bytes));
    big(rest, n as usize)
}

// The two integers and the pid after a function's name.
#[tactic(auto, unfolding(crate::specs::Inner::Parts::owner_of))]
fn owner(bytes: &[u8]) -> Result<(HeadRead<'_>, &[u8]), usize>
    ensures { Gives (λ x. (head x.0, x.1.now)) result (owner_of bytes.now) }
{
    let (_old_index, rest) = taken!(integer(bytes));
    let (_old_unique, rest) = taken!(integer(rest));
    pid(rest)
}

#[tactic(auto, unfolding(crate::specs::Inner::Parts::closure_of))]
fn closure(bytes: &[u8]) -> Result<(HeadRead<'_>, &[u8]), usize>
    ensures { Gives (λ x. (head x.0, x.1.now)) result (closure_of bytes.now) }
{
    let (_size, rest) = taken!(number4(bytes));
    let (arity, rest) = taken!(byte(rest));
    let (_unique, rest) = taken!(run(rest, 16));
    let (index, rest) = taken!(number4(rest));
    let (n, rest) = taken!(number4(rest));
    let (name, rest) = taken!(atom(rest));
    let (_owner, rest) = taken!(owner(rest));
    Ok((HeadRead::Fun(name, index, arity, n), rest))
}

#[tactic(auto, unfolding(crate::specs::Inner::Parts::export_of))]
fn export(bytes: &[u8]) -> Result<(HeadRead<'_>, &[u8]), usize>
    ensures { Gives (λ x. (head x.0, x.1.now)) result (export_of bytes.now) }
{
    let (name, rest) = taken!(atom(bytes));
    let (function, rest) = taken!(atom(rest));
    let (arity, rest) = taken!(small(rest));
    Ok((HeadRead::Export(name, function, arity), rest))
}

fn small_int(bytes: &[u8]) -> Result<(HeadRead<'_>, &[u8]), usize>
    ensures { Gives (λ x. (head x.0, x.1.now)) result (headed Small (byte_of bytes.now)) }
{
    let (value, rest) = taken!(byte(bytes));
    Ok((HeadRead::Small(value), rest))
}

fn int(bytes: &[u8]) -> Result<(HeadRead<'_>, &[u8]), usize>
    ensures { Gives (λ x. (head x.0, x.1.now)) result (headed Int (number4_of bytes.now)) }
{
    let (value, rest) = taken!(number4(bytes));
    Ok((HeadRead::Int(value), rest))
}

fn short_atom(bytes: &[u8]) -> Result<(HeadRead<'_>, &[u8]), usize>
    ensures { Gives (λ x. (head x.0, x.1.now)) result (headed Atom (sized1_of bytes.now)) }
{
    let (name, rest) = taken!(sized1(bytes));
    Ok((HeadRead::Atom(name), rest))
}

fn long_atom(bytes: &[u8]) -> Result<(HeadRead<'_>, &[u8]), usize>
    ensures { Gives (λ x. (head x.0, x.1.now)) result (headed Atom (sized2_of bytes.now)) }
{
    let (name, rest) = taken!(sized2(bytes));
    Ok((HeadRead::Atom(name), rest))
}

fn small_tuple(bytes: &[u8]) -> Result<(HeadRead<'_>, &[u8]), usize>
    ensures { Gives (λ x. (head x.0, x.1.now)) result (headed Tuple (byte_of bytes.now)) }
{
    let (n, rest) = taken!(byte(bytes));
    Ok((HeadRead::Tuple(n as u32), rest))
}

fn large_tuple(bytes: &[u8]) -> Result<(HeadRead<'_>, &[u8]), usize>
    ensures { Gives (λ x. (head x.0, x.1.now)) result (headed Tuple (number4_of bytes.now)) }
{
    let (n, rest) = taken!(number4(bytes));
    Ok((HeadRead::Tuple(n), rest))
}

fn chars(bytes: &[u8]) -> Result<(HeadRead<'_>, &[u8]), usize>
    ensures { Gives (λ x. (head x.0, x.1.now)) result (headed Chars (sized2_of bytes.now)) }
{
    let (chars, rest) = taken!(sized2(bytes));
    Ok((HeadRead::Chars(chars), rest))
}

fn linked(bytes: &[u8]) -> Result<(HeadRead<'_>, &[u8]), usize>
    ensures { Gives (λ x. (head x.0, x.1.now)) result (headed Linked (number4_of bytes.now)) }
{
    let (n, rest) = taken!(number4(bytes));
    Ok((HeadRead::Linked(n), rest))
}

fn bin(bytes: &[u8]) -> Result<(HeadRead<'_>, &[u8]), usize>
    ensures { Gives (λ x. (head x.0, x.1.now)) result (headed Bin (sized4_of bytes.now)) }
{
    let (bin, rest) = taken!(sized4(bytes));
    Ok((HeadRead::Bin(bin), rest))
}

fn pairs(bytes: &[u8]) -> Result<(HeadRead<'_>, &[u8]), usize>
    ensures { Gives (λ x. (head x.0, x.1.now)) result (headed Pairs (number4_of bytes.now)) }
{
    let (n, rest) = taken!(number4(bytes));
    Ok((HeadRead::Pairs(n), rest))
}

// The head at the front of the bytes.
#[inline(always)]
#[tactic(auto, using(crate::proofs::TagRows::nil_row))]
pub(crate) fn read_head(bytes: &[u8]) -> Result<(HeadRead<'_>, &[u8]), usize>
    ensures { Gives (λ x. (head x.0, x.1.now)) result (head_of bytes.now) }
{
    match bytes {
        [] => Err(0),
        [70, rest @ ..] => float(rest),
        [77, rest @ ..] => bits(rest),
        [88, rest @ ..] => pid_with(rest, true),
        [89, rest @ ..] => port_with(rest, true),
        [90, rest @ ..] => ref_with(rest, true),
        [97, rest @ ..] => small_int(rest),
        [98, rest @ ..] => int(rest),
        [100, rest @ ..] => long_atom(rest),
        [102, rest @ ..] => port_with(rest, false),
        [103, rest @ ..] => pid_with(rest, false),
        [104, rest @ ..] => small_tuple(rest),
        [105, rest @ ..] => large_tuple(rest),
        [106, rest @ ..] => Ok((HeadRead::Nil, rest)),
        [107, rest @ ..] => chars(rest),
        [108, rest @ ..] => linked(rest),
        [109, rest @ ..] => bin(rest),
        [110, rest @ ..] => small_big(rest),
        [111, rest @ ..] => large_big(rest),
        [112, rest @ ..] => closure(rest),
        [113, rest @ ..] => export(rest),
        [114, rest @ ..] => ref_with(rest, false),
        [115, rest @ ..] => short_atom(rest),
        [116, rest @ ..] => pairs(rest),
        [118, rest @ ..] => long_atom(rest),
        [119, rest @ ..] => short_atom(rest),
        [120, rest @ ..] => port120(rest),
        [_, ..] => Err(bytes.len()),
    }
}

impl<'a> HeadRead<'a> {
    /// How many terms follow the head.
    pub fn kids(&self) -> u64
        ensures value { result ≡ kids (head self.now) }
        ensures few { result ≤ 2 ^ 33 }
    {
        match *self {
            HeadRead::Tuple(n) => n as u64,
            HeadRead::Linked(n) => n as u64 + 1,
            HeadRead::Fun(_, _, _, n) => n as u64,
            HeadRead::Pairs(n) => 2 * n as u64,
            _ => 0,
        }
    }
}
