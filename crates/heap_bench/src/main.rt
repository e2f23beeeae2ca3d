//! `heap_bench WHAT FILE [PID ADDR]`: what the benchmark times of a heap and of an external term.
//!
//! - `lines`: reads each line of the file as a heap line, and says how many lines
//!   are one. Its time is that of `heap_line` and `form`, and of reading the file.
//! - `external`: reads the file as one external term, after a 131, and writes
//!   its text into nothing. Its time is that of this and of reading the file.
//! - `load`: loads the heap of a process, and says how many cells it has.
//! - `previews`: also loads the previews of its references to binaries.
//! - `walk`: judges and prints the term at an address into nothing, and says whether it is clean.
#![tactic(auto)]

ghost use Rattle.binary_refs.specs.Previews.{AreFor};
ghost use Rattle.dump_sections.specs.Index.{IsBuiltOver};

mod nowhere;

use binary_refs::Previews;
use dump_io::{Dumps, Limits, hex_u64};
use etf_terms::Ext;
use field_lines::reading::lines;
use heap_cells::Heap;
use host_devices::FileDumps;
use nowhere::Nowhere;
use section_index::{Index, build};
use std::{env, fs, io};
use term_forms::reading::form;
use term_forms::shapes::Elem;
use term_forms::{Enc, heap_line};
use term_unfold::{Verdict, Walker};

// Whether a line is an address followed by a form.
fn is_heap_line(text: &[u8]) -> bool {
    heap_line(text).is_some_and(|(_, spelled)| form(spelled, Enc::Base64).is_some())
}

fn count_lines(rt: &HostRuntime, file: &str) -> io::Result<()> {
    let body = fs::read(rt, file)?;
    let count = lines(body.as_slice())
        .filter(|line| is_heap_line(line.text))
        .count();
    println!(rt; "{count} heap lines")
}

fn write_external(rt: &HostRuntime, file: &str) -> io::Result<()> {
    let bytes = fs::read(rt, file)?;
    match Ext::read(rt.alloc(), bytes.as_slice()) {
        Ok(mut ext) => {
            let written = ext.put(&mut Nowhere).is_ok();
            println!(rt; "written: {written}")
        }
        Err(_) => println!(rt; "no external term"),
    }
}

// More nodes than any of the benchmark's terms has.
const BUDGET: u32 = 1_000_000_000;

// Whether the term at an address was judged and printed.
fn walk(rt: &HostRuntime, heap: &Heap, previews: &Previews, addr: u64) -> bool
    requires { AreFor heap.now.cells previews.now }
{
    let Ok(mut walker) = Walker::new(rt.alloc(), heap, previews) else {
        return false;
    };
    let root = Elem::Ref(addr);
    match walker.judge(root, BUDGET) {
        Verdict::Bad(_, _) => false,
        Verdict::Clean => walker.print(root, BUDGET, false, &mut Nowhere).is_ok(),
    }
}

// What is to be done with the heap of a process.
#[derive(Clone, Copy)]
struct Work<'a> {
    what: &'a str,
    pid: &'a str,
    addr: u64,
}

// How many cells a heap has, if what was asked for beside its load was done.
fn on_heap<D: Dumps>(
    rt: &HostRuntime,
    dumps: &mut D,
    index: &Index,
    heap: &Heap,
    work: &Work<'_>,
) -> Option<u64>
    requires { IsBuiltOver (D.state dumps.old).now index.now }
{
    if work.what != "load" {
        let previews = Previews::load(rt.alloc(), dumps, index, heap).ok()?;
        if work.what == "walk" && !walk(rt, heap, &previews, work.addr) {
            return None;
        }
    }
    Some(u64::from(heap.cells()))
}

// What `on_heap` returns for the heap of the process, if that is loaded.
fn on_index<D: Dumps>(
    rt: &HostRuntime,
    dumps: &mut D,
    index: &Index,
    work: &Work<'_>,
) -> Option<u64>
    requires { IsBuiltOver (D.state dumps.old).now index.now }
{
    let pid = work.pid.as_bytes();
    let heap = Heap::load(rt.alloc(), dumps, index, pid, &Limits::usual()).ok()?;
    on_heap(rt, dumps, index, &heap, work)
}

// What `on_index` returns for the file, if it is a dump.
fn on_file(rt: &HostRuntime, file: &str, work: &Work<'_>) -> Option<u64> {
    let mut dumps = FileDumps::new(rt);
    let index = build(rt.alloc(), &mut dumps, file, &Limits::usual()).ok()?;
    on_index(rt, &mut dumps, &index, work)
}

fn time_heap(rt: &HostRuntime, file: &str, work: &Work<'_>) -> io::Result<()> {
    match on_file(rt, file, work) {
        Some(cells) => println!(rt; "{cells} cells"),
        None => println!(rt; "failed"),
    }
}

fn run(rt: &HostRuntime, words: &[String]) -> io::Result<()> {
    match words {
        [what, file] if what.as_str() == "lines" => count_lines(rt, file.as_str()),
        [what, file] if what.as_str() == "external" => write_external(rt, file.as_str()),
        [what, file, pid, addr] => {
            let work = Work {
                what: what.as_str(),
                pid: pid.as_str(),
                addr: hex_u64(addr.as_bytes()).unwrap_or(0),
            };
            time_heap(rt, file.as_str(), &work)
        }
        _ => println!(rt; "usage: heap_bench WHAT FILE [PID ADDR]"),
    }
}

fn main(rt: HostRuntime) -> io::Result<()> {
    let mut words = Vec::new(rt.alloc());
    for word in env::args(&rt)?.skip(1) {
        words.push(word)?;
    }
    run(&rt, words.as_slice())
}
