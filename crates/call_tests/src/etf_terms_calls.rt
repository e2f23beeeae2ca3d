use dump_io::MemSink;
use etf_terms::Ext;
use std::alloc::{AllocError, Global};
use std::process::Abort;
use std::test::Fail;

// A front, this many times, a middle, and a back, as many times.
fn nested(
    alloc: Global,
    levels: usize,
    front: &[u8],
    middle: &[u8],
    back: &[u8],
) -> Result<Vec<u8>, AllocError> {
    let mut bytes = Vec::new(alloc);
    bytes.push(131)?;
    for _ in 0..levels {
        bytes.extend_from_slice(front)?;
    }
    bytes.extend_from_slice(middle)?;
    for _ in 0..levels {
        bytes.extend_from_slice(back)?;
    }
    Ok(bytes)
}

// How long the text of the term with these bytes is.
fn text_length(alloc: Global, bytes: &[u8]) -> Result<usize, Fail> {
    let mut ext = Ext::read(alloc, bytes).ok().ok_or("no term")?;
    let mut sink = MemSink::new(alloc, 0, Vec::new(alloc));
    ext.put(&mut sink)?;
    Ok(sink.written().len())
}

// The term that a front, 100,000 times, a middle, and a back, as many times, make has a text of this length.
fn is_long(rt: &impl Abort, alloc: Global, parts: [&[u8]; 3], length: usize) -> Result<(), Fail> {
    let bytes = nested(alloc, 100_000, parts[0], parts[1], parts[2])?;
    assert_eq!(rt; text_length(alloc, &bytes)?, length);
    Ok(())
}

#[test]
fn large_terms_are_read(rt: HostRuntime) -> Result<(), Fail> {
    let alloc = rt.alloc();
    let list = b"l\x00\x00\x00\x01".as_slice();
    is_long(&rt, alloc, [list, b"j", b"j"], 200_002)?;
    let tail = b"l\x00\x00\x00\x01a\x07".as_slice();
    is_long(&rt, alloc, [tail, b"j", b""], 399_999)?;
    is_long(&rt, alloc, [b"h\x01", b"j", b""], 200_002)?;
    // 100,000 is 0x000186A0.
    let pairs = b"t\x00\x01\x86\xA0".as_slice();
    is_long(&rt, alloc, [b"", pairs, b"a\x01a\x02"], 500_002)
}
