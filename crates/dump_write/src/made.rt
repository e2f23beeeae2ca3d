// The dump that is made from a seed and a count of processes. Each function
// appends the lines of one or several sections. Only a lack of memory stops one,
// and then the whole dump is dropped, so no clause says what was appended by then.
ghost use Rattle.std.specs.Prelude.{◌≡◌, ◌++◌, ◌∷◌, [], ◌≤◌, IfOk, OnOk};
ghost use Rattle.std.specs.List.{flat_map, range_with_len};
ghost use Rattle.dump_write.specs.Made.{heap_of, link_list, second_cell, proc_section, stack_section, dictionary_section, messages_section, made_heap, made_process, first_sections, last_sections, made};
ghost use Rattle.dump_write.specs.Written.{lines_of};

use crate::appending::append_lines;
use dump_io::Piece::{Bytes, Dec, Hex};
use std::alloc::{AllocError, Global};

// The address of the first cell in the heap of process i.
fn heap_of(i: u64) -> u64
    requires { i ≤ 200000 }
    ensures { result ≡ heap_of i }
{
    4096 * i
}

fn put_first_sections(into: &mut Vec<u8>, seed: u64, count: u64) -> Result<(), AllocError>
    requires { count ≤ 200000 }
    ensures { OnOk result (into.new.items
        ≡ into.old.items ++ lines_of (first_sections seed count)) }
{
    append_lines(
        into,
        &[
            &[Bytes(b"=erl_crash_dump:0.5")],
            &[Bytes(b"Slogan: made "), Dec(seed), Bytes(b" "), Dec(count)],
            &[Bytes(b"=memory")],
            &[Bytes(b"total: "), Dec(1000 * count)],
        ],
    )
}

fn put_link_list(into: &mut Vec<u8>, queue: u64, next: u64, previous: u64) -> Result<(), AllocError>
    ensures { OnOk result (into.new.items
        ≡ into.old.items ++ lines_of (link_list queue next previous ∷ [])) }
{
    if queue == 0 {
        append_lines(
            into,
            &[&[Bytes(b"Link list: [<0."), Dec(next), Bytes(b".0>]")]],
        )
    } else {
        append_lines(
            into,
            &[&[
                Bytes(b"Link list: [<0."),
                Dec(next),
                Bytes(b".0>, <0."),
                Dec(previous),
                Bytes(b".0>]"),
            ]],
        )
    }
}

fn put_proc_section(
    into: &mut Vec<u8>,
    i: u64,
    queue: u64,
    next: u64,
    previous: u64,
) -> Result<(), AllocError>
    ensures { OnOk result (into.new.items
        ≡ into.old.items ++ lines_of (proc_section i queue next previous)) }
{
    append_lines(
        into,
        &[
            &[Bytes(b"=proc:<0."), Dec(i), Bytes(b".0>")],
            &[Bytes(b"State: Waiting")],
            &[Bytes(b"Name: p"), Dec(i)],
            &[Bytes(b"Message queue length: "), Dec(queue)],
        ],
    )?;
    put_link_list(into, queue, next, previous)?;
    append_lines(into, &[&[Bytes(b"Memory: 2000")]])
}

fn put_stack_section(into: &mut Vec<u8>, i: u64) -> Result<(), AllocError>
    requires { i ≤ 200000 }
    ensures { OnOk result (into.new.items ≡ into.old.items ++ lines_of (stack_section i)) }
{
    append_lines(
        into,
        &[
            &[Bytes(b"=proc_stack:<0."), Dec(i), Bytes(b".0>")],
            &[Bytes(b"y0:H"), Hex(heap_of(i))],
        ],
    )
}

fn put_dictionary_section(into: &mut Vec<u8>, i: u64) -> Result<(), AllocError>
    requires { i ≤ 200000 }
    ensures { OnOk result (into.new.items ≡ into.old.items ++ lines_of (dictionary_section i)) }
{
    append_lines(
        into,
        &[
            &[Bytes(b"=proc_dictionary:<0."), Dec(i), Bytes(b".0>")],
            &[Bytes(b"H"), Hex(heap_of(i) + 32)],
        ],
    )
}

fn put_messages_section(into: &mut Vec<u8>, i: u64, queue: u64) -> Result<(), AllocError>
    ensures { OnOk result (into.new.items ≡ into.old.items ++ lines_of (messages_section i queue)) }
{
    append_lines(
        into,
        &[&[Bytes(b"=proc_messages:<0."), Dec(i), Bytes(b".0>")]],
    )?;
    for _ in 0..queue {
        append_lines(into, &[&[Bytes(b"I1:N")]])?;
    }
    Ok(())
}

fn put_second_cell(into: &mut Vec<u8>, queue: u64, first: u64) -> Result<(), AllocError>
    requires { first ≤ 819200000 }
    ensures { OnOk result (into.new.items
        ≡ into.old.items ++ lines_of (second_cell queue first ∷ [])) }
{
    let second = first + 16;
    let tuple = first + 32;
    if queue == 5 {
        append_lines(
            into,
            &[&[
                Hex(second),
                Bytes(b":lH"),
                Hex(tuple),
                Bytes(b"|H"),
                Hex(first),
            ]],
        )
    } else {
        append_lines(
            into,
            &[&[Hex(second), Bytes(b":lH"), Hex(tuple), Bytes(b"|N")]],
        )
    }
}

fn put_heap_section(into: &mut Vec<u8>, i: u64, queue: u64) -> Result<(), AllocError>
    requires { i ≤ 200000 }
    ensures { OnOk result (into.new.items ≡ into.old.items ++ lines_of (made_heap i queue)) }
{
    let first = heap_of(i);
    let second = first + 16;
    let tuple = first + 32;
    let map = first + 48;
    let binary = first + 64;
    append_lines(
        into,
        &[
            &[Bytes(b"=proc_heap:<0."), Dec(i), Bytes(b".0>")],
            &[
                Hex(first),
                Bytes(b":lI"),
                Dec(queue),
                Bytes(b"|H"),
                Hex(second),
            ],
        ],
    )?;
    put_second_cell(into, queue, first)?;
    append_lines(
        into,
        &[
            &[
                Hex(tuple),
                Bytes(b":t2:H"),
                Hex(map),
                Bytes(b",H"),
                Hex(binary),
            ],
            &[Hex(map), Bytes(b":Mf1:H10:I"), Dec(i)],
            &[Hex(binary), Bytes(b":Yc20:1:3")],
        ],
    )
}

fn put_process(into: &mut Vec<u8>, seed: u64, count: u64, i: u64) -> Result<(), AllocError>
    requires few { count ≤ 200000 }
    requires first { 1 ≤ i }
    requires last { i ≤ count }
    ensures { OnOk result (into.new.items
        ≡ into.old.items ++ lines_of (made_process seed count i)) }
{
    let queue = (seed % 10 + 7 * i) % 10;
    let next = i % count + 1;
    let previous = (i + count - 2) % count + 1;
    put_proc_section(into, i, queue, next, previous)?;
    put_stack_section(into, i)?;
    put_dictionary_section(into, i)?;
    put_messages_section(into, i, queue)?;
    put_heap_section(into, i, queue)
}

fn put_processes(into: &mut Vec<u8>, seed: u64, count: u64) -> Result<(), AllocError>
    requires some { 1 ≤ count }
    requires few { count ≤ 200000 }
    ensures { OnOk result (into.new.items
        ≡ into.old.items ++ lines_of (flat_map (made_process seed count) (range_with_len 1 count))) }
{
    for i in 1..=count {
        put_process(into, seed, count, i)?;
    }
    Ok(())
}

fn put_last_sections(into: &mut Vec<u8>) -> Result<(), AllocError>
    ensures { OnOk result (into.new.items ≡ into.old.items ++ lines_of last_sections) }
{
    append_lines(
        into,
        &[
            &[Bytes(b"=literals")],
            &[Bytes(b"10:t1:A3:key")],
            &[Bytes(b"=binary:20")],
            &[Bytes(b"5:aGVsbG8=")],
            &[Bytes(b"=end")],
        ],
    )
}

/// Makes the dump of a node with `count` processes, from 1
/// to 200,000, all of them waiting and linked in a ring.
///
/// Process `i`, counted from 1, has the pid `<0.i.0>`, a stack and a dictionary with one root each,
/// and 0 to 9 messages, depending on `i` and the last digit of `seed`. A process with an empty
/// mailbox isn't linked to the one before it, and the heap of one with five messages is cyclic, so
/// that an audit and a walk have something to find. Returns an error only if memory is lacking.
pub fn make(alloc: Global, seed: u64, count: u32) -> Result<Vec<u8>, AllocError>
    requires some { 1 ≤ count }
    requires few { count ≤ 200000 }
    ensures { IfOk result (λ dump. dump.items ≡ made seed count) }
{
    let count = u64::from(count);
    let mut dump = Vec::new(alloc);
    put_first_sections(&mut dump, seed, count)?;
    put_processes(&mut dump, seed, count)?;
    put_last_sections(&mut dump)?;
    Ok(dump)
}
