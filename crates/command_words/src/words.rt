// The words of the command line.
ghost use Rattle.std.specs.Prelude.{◌≡◌, ◌<◌, ℕ, Bool, [], ◌∷◌, List, map, option_map};
ghost use Rattle.std.specs.Option.{IfSome};
ghost use Rattle.std.specs.String.{string_bytes};
ghost use Rattle.command_words.specs.Command.{Ask, audit, audit_json, audit_query, audit_settled, binary, command, full_of, holders, on, peek_query, peek_term, plain_query, process_query, roots_query, shapes_query, shown_command, shown_query, some_roots_query, stacks, term, term_query, triage, weigh_query, word_command, word_query, IsInRange, counted_shapes, is_pids, fields_query, cell_query, ext, path, waits, heavy_query};
ghost use Rattle.command_words.specs.Ranges.{number_upto};
ghost use Rattle.dump_io.specs.Numbers.{hex_number};

use crate::budgets::{Budget, read_budget};
use crate::made_words::{make_command, trial_command};
use crate::numbers::number_upto;
use dump_io::{dec_u64, hex_u64};
use root_views::RootKind;
use table_sections::TableKind;

// How many rows of each table `triage` shows, how many groups `stacks`, how many
// kinds of messages `shapes` and how many parts `weigh`, if the words have no number.
const USUAL_ROWS: u32 = 10;

// How many parts of each level `heavy` shows, if the words have no number.
const USUAL_PARTS: u32 = 3;

// The most rows, groups, kinds, parts or roots for which a number in the words may ask.
const MOST_ROWS: u32 = 1_000;

/// A command with its words.
#[derive(Clone, Copy)]
pub enum Cmd<'a> {
    /// What is asked of the dump in a file.
    On { file: &'a str, query: Query<'a> },
    /// `make SEED COUNT`: a made dump with this many processes. No file is opened.
    Make { seed: u64, count: u32 },
    /// `trial SEED COUNT`: how much there is in such a dump,
    /// and what is bad or one-sided in it. No file is opened.
    Trial { seed: u64, count: u32 },
}

/// What a command asks of a dump, with its words.
#[derive(Clone, Copy)]
pub enum Query<'a> {
    /// `index FILE`: the sections of a dump and its state.
    Index,
    /// `info FILE`: version, size, counts, slogan, tags and state of a dump.
    Info,
    /// `procs FILE`: the process table.
    Procs,
    /// `proc FILE PID`: the fields of one process.
    Proc {
        pid: &'a str,
    },
    /// `memory FILE`: the fields of the first section on memory.
    Memory,
    /// `field FILE KEY`: the field with this key of every process.
    Field {
        key: &'a str,
    },
    /// `fields FILE TAG KEY`: the field with this key of every section with this tag.
    Fields {
        tag: &'a str,
        key: &'a str,
    },
    /// `ets FILE`, `ports FILE`, `nodes FILE`, `mods FILE`: the ETS tables,
    /// the ports, the other nodes that the dumped node knew, and the modules.
    Table {
        kind: TableKind,
    },
    /// `stack FILE PID [NODES] [marked]`, `dict ..`, `mail ..`: the roots of a process's stack, dictionary
    /// or mailbox, each within this many nodes. Bad addresses are marked in the texts; without `marked`,
    /// the first bad address of a root stands in place of its text.
    Roots {
        kind: RootKind,
        pid: &'a str,
        nodes: u32,
        marked: bool,
    },
    /// `term FILE PID ADDR [NODES] [marked]`: the term at an address, as a process refers to it.
    Term {
        pid: &'a str,
        addr: u64,
        nodes: u32,
        marked: bool,
    },
    /// `peek FILE PID ADDR [NODES] [marked]`: the term at an address, as a process refers to it, whatever the size of the heap.
    PeekTerm {
        pid: &'a str,
        addr: u64,
        nodes: u32,
        marked: bool,
    },
    /// `peek FILE PID stack FIRST COUNT [NODES] [marked]`, `peek FILE PID dict ..`, `peek FILE PID mail ..`: of the
    /// roots of a process's stack, dictionary or mailbox those from place FIRST on, at most COUNT of them,
    /// whatever the sizes of these and of the heap.
    PeekRoots {
        kind: RootKind,
        pid: &'a str,
        first: u64,
        count: u32,
        nodes: u32,
        marked: bool,
    },
    /// `ext FILE PID ADDR`: the external term at an address.
    Ext {
        pid: &'a str,
        addr: u64,
    },
    /// `path FILE PID ADDR`: by which way the roots of a process reach the
    /// cell at an address, whatever the size of the heap.
    Path {
        pid: &'a str,
        addr: u64,
    },
    /// `reach FILE PID`: which cells of a process's heap its roots don't reach, and how many they do reach.
    Reach {
        pid: &'a str,
    },
    /// `shapes FILE PID [N] [pids]`: what kinds of messages are in a process's mailbox, at most N of them, the
    /// most frequent first, whatever the sizes of the mailbox and of the heap. With `pids` those differ that
    /// have different pids.
    Shapes {
        pid: &'a str,
        count: u32,
        pids: bool,
    },
    /// `weigh FILE PID [N]`: which of the cells to which a process's roots refer alone hold
    /// how much of its heap, at most N of them, whatever the size of the heap.
    Weigh {
        pid: &'a str,
        count: u32,
    },
    /// `weigh FILE PID N ADDR`: what the cells alone hold to which the elements of the cell at an address refer.
    WeighCell {
        pid: &'a str,
        count: u32,
        addr: u64,
    },
    /// `heavy FILE PID [N]`: from the roots of a process down to where most of its memory hangs, at most N parts of
    /// each level, whatever the size of the heap.
    Heavy {
        pid: &'a str,
        /// From 1 to 1,000.
        count: u32,
    },
    /// `cells FILE PID`: what is on a process's heap: each cell with its address, its kind and its size.
    Cells {
        pid: &'a str,
    },
    /// `binary FILE ADDR`: the bytes of a binary.
    Binary {
        addr: u64,
    },
    /// `binaries FILE`: which processes hold how much of the binaries
    /// outside the heaps, and which of these binaries are large.
    Binaries,
    /// `holders FILE ADDR`: which processes hold a binary.
    Holders {
        addr: u64,
    },
    /// `triage FILE [N]`: what to read first of a dump: its state and its memory,
    /// and the processes and ETS tables that stand out, at most N by each measure.
    Triage {
        count: u32,
    },
    /// `stacks FILE [N]`: which processes stand at the same place, at most N groups of them.
    Stacks {
        count: u32,
    },
    /// `waits FILE [N]`: who waits for whom, at most N targets, and at most N circles.
    Waits {
        /// From 1 to 1,000.
        count: u32,
    },
    /// `links FILE`: the links and monitors of all processes.
    Links,
    /// `redact FILE`: the dump with the payloads of its binaries made zero, which is written while it is read.
    Redact,
    /// `audit FILE LIMIT [full]`: the one-sided links and monitors, the message queues that are longer than
    /// the limit, and what can't be read. A full audit also has the links and monitors with processes that
    /// aren't in the dump, and the message queues whose stated length isn't the number of their messages.
    Audit {
        limit: u64,
        full: bool,
    },
    /// `audit-json FILE LIMIT [full]`: the findings of an audit as one JSON text.
    AuditJson {
        limit: u64,
        full: bool,
    },
    /// `audit-settled FILE LIMIT [full]`: the findings of such an audit that no
    /// signal in flight explains, and how many it does.
    AuditSettled {
        limit: u64,
        full: bool,
    },
}

/// The command that the words after the program's name are. Returns `None` exactly when they are no command.
pub fn read_words(words: &[String]) -> Option<Cmd<'_>>
    ensures reads { option_map shown_command result ≡ command (map string_bytes words.now) }
    ensures range { IfSome result (λ cmd. IsInRange (shown_command cmd)) }
{
    command(words)
}

fn command(words: &[String]) -> Option<Cmd<'_>>
    ensures { option_map shown_command result ≡ command (map string_bytes words.now) }
{
    match words {
        [name, file] => of_file(file.as_str(), plain_query(name.as_str())),
        [name, file, word] => word_command(name.as_str(), file.as_str(), word.as_str()),
        [name, file, word, _, ..] => of_file(
            file.as_str(),
            process_query(name.as_str(), word.as_str(), &words[3..]),
        ),
        _ => None,
    }
}

// The command that asks this of the dump in a file.
fn of_file<'a>(file: &'a str, query: Option<Query<'a>>) -> Option<Cmd<'a>>
    ensures { option_map shown_command result
        ≡ option_map (on file.now) (option_map shown_query query.entry) }
{
    let query = query?;
    Some(Cmd::On { file, query })
}

fn plain_query<'a>(name: &str) -> Option<Query<'a>>
    ensures { option_map shown_query result ≡ plain_query name.now }
{
    match name {
        "index" => Some(Query::Index),
        "info" => Some(Query::Info),
        "procs" => Some(Query::Procs),
        "memory" => Some(Query::Memory),
        "ets" => Some(Query::Table {
            kind: TableKind::Ets,
        }),
        "ports" => Some(Query::Table {
            kind: TableKind::Ports,
        }),
        "nodes" => Some(Query::Table {
            kind: TableKind::Nodes,
        }),
        "mods" => Some(Query::Table {
            kind: TableKind::Mods,
        }),
        "binaries" => Some(Query::Binaries),
        "triage" => Some(Query::Triage { count: USUAL_ROWS }),
        "stacks" => Some(Query::Stacks { count: USUAL_ROWS }),
        "waits" => Some(Query::Waits { count: USUAL_ROWS }),
        "links" => Some(Query::Links),
        "redact" => Some(Query::Redact),
        _ => None,
    }
}

fn word_command<'a>(name: &str, file: &'a str, word: &'a str) -> Option<Cmd<'a>>
    ensures { option_map shown_command result ≡ word_command name.now file.now word.now }
{
    match name {
        "make" => make_command(file, word),
        "trial" => trial_command(file, word),
        _ => of_file(file, word_query(name, word)),
    }
}

fn word_query<'a>(name: &str, word: &'a str) -> Option<Query<'a>>
    ensures { option_map shown_query result ≡ word_query name.now word.now }
{
    match name {
        "proc" => Some(Query::Proc { pid: word }),
        "field" => Some(Query::Field { key: word }),
        "reach" => Some(Query::Reach { pid: word }),
        "cells" => Some(Query::Cells { pid: word }),
        "binary" => binary_query(word),
        "holders" => holders_query(word),
        "triage" => triage_query(word),
        "stacks" => stacks_query(word),
        "waits" => waits_query(word),
        _ => process_query(name, word, &[]),
    }
}

fn binary_query<'a>(word: &str) -> Option<Query<'a>>
    ensures { option_map shown_query result ≡ option_map binary (hex_number word.now) }
{
    let addr = hex_u64(word.as_bytes())?;
    Some(Query::Binary { addr })
}

fn holders_query<'a>(word: &str) -> Option<Query<'a>>
    ensures { option_map shown_query result ≡ option_map holders (hex_number word.now) }
{
    let addr = hex_u64(word.as_bytes())?;
    Some(Query::Holders { addr })
}

fn triage_query<'a>(word: &str) -> Option<Query<'a>>
    ensures { option_map shown_query result ≡ option_map triage (number_upto 1000 word.now) }
{
    let count = number_upto(word, MOST_ROWS)?;
    Some(Query::Triage { count })
}

fn stacks_query<'a>(word: &str) -> Option<Query<'a>>
    ensures { option_map shown_query result ≡ option_map stacks (number_upto 1000 word.now) }
{
    let count = number_upto(word, MOST_ROWS)?;
    Some(Query::Stacks { count })
}

fn waits_query<'a>(word: &str) -> Option<Query<'a>>
    ensures { option_map shown_query result ≡ option_map waits (number_upto 1000 word.now) }
{
    let count = number_upto(word, MOST_ROWS)?;
    Some(Query::Waits { count })
}

fn process_query<'a>(name: &str, word: &'a str, words: &'a [String]) -> Option<Query<'a>>
    ensures { option_map shown_query result
        ≡ process_query name.now word.now (map string_bytes words.now) }
{
    match name {
        "stack" => roots_query(RootKind::Stack, word, words),
        "dict" => roots_query(RootKind::Dict, word, words),
        "mail" => roots_query(RootKind::Mail, word, words),
        "term" => term_query(word, words),
        "peek" => peek_query(word, words),
        "shapes" => shapes_query(word, words),
        "weigh" => weigh_query(word, words),
        "heavy" => heavy_query(word, words),
        "ext" => ext_query(word, words),
        "fields" => fields_query(word, words),
        "path" => path_query(word, words),
        "audit" => audit_query(word, words),
        "audit-json" => audit_json_query(word, words),
        "audit-settled" => audit_settled_query(word, words),
        _ => None,
    }
}

fn roots_query<'a>(kind: RootKind, pid: &'a str, words: &[String]) -> Option<Query<'a>>
    ensures { option_map shown_query result
        ≡ roots_query kind pid.now (map string_bytes words.now) }
{
    let Budget { nodes, marked } = read_budget(words)?;
    Some(Query::Roots {
        kind,
        pid,
        nodes,
        marked,
    })
}

// An address, and the budget behind it.
struct Place {
    addr: u64,
    budget: Budget,
}

fn read_place(words: &[String]) -> Option<Place>
    ensures { (form : List ℕ → ℕ → ℕ → Bool → Ask) (pid : List ℕ)
        → option_map (λ p. form pid p.addr p.budget.nodes p.budget.marked) result
        ≡ term_query form pid (map string_bytes words.now) }
{
    let [addr, rest @ ..] = words else {
        return None;
    };
    let addr = hex_u64(addr.as_bytes())?;
    let budget = read_budget(rest)?;
    Some(Place { addr, budget })
}

fn term_query<'a>(pid: &'a str, words: &[String]) -> Option<Query<'a>>
    ensures { option_map shown_query result
        ≡ term_query term pid.now (map string_bytes words.now) }
{
    let Place { addr, budget } = read_place(words)?;
    Some(Query::Term {
        pid,
        addr,
        nodes: budget.nodes,
        marked: budget.marked,
    })
}

fn peek_term_query<'a>(pid: &'a str, words: &[String]) -> Option<Query<'a>>
    ensures { option_map shown_query result
        ≡ term_query peek_term pid.now (map string_bytes words.now) }
{
    let Place { addr, budget } = read_place(words)?;
    Some(Query::PeekTerm {
        pid,
        addr,
        nodes: budget.nodes,
        marked: budget.marked,
    })
}

fn some_roots_query<'a>(kind: RootKind, pid: &'a str, words: &[String]) -> Option<Query<'a>>
    ensures { option_map shown_query result
        ≡ some_roots_query kind pid.now (map string_bytes words.now) }
{
    let [first, count, rest @ ..] = words else {
        return None;
    };
    let first = dec_u64(first.as_bytes())?;
    let count = number_upto(count.as_str(), MOST_ROWS)?;
    let Budget { nodes, marked } = read_budget(rest)?;
    Some(Query::PeekRoots {
        kind,
        pid,
        first,
        count,
        nodes,
        marked,
    })
}

fn peek_query<'a>(pid: &'a str, words: &[String]) -> Option<Query<'a>>
    ensures { option_map shown_query result
        ≡ peek_query pid.now (map string_bytes words.now) }
{
    let [what, rest @ ..] = words else {
        return None;
    };
    match what.as_str() {
        "stack" => some_roots_query(RootKind::Stack, pid, rest),
        "dict" => some_roots_query(RootKind::Dict, pid, rest),
        "mail" => some_roots_query(RootKind::Mail, pid, rest),
        _ => peek_term_query(pid, words),
    }
}

fn is_pids(word: &str) -> bool
    ensures { result ≡ is_pids word.now }
{
    word == "pids"
}

// Kinds of messages, at most as many as a word says.
fn counted_shapes<'a>(pid: &'a str, pids: bool, word: &str) -> Option<Query<'a>>
    ensures { option_map shown_query result ≡ counted_shapes pid.now pids word.now }
{
    let count = number_upto(word, MOST_ROWS)?;
    Some(Query::Shapes { pid, count, pids })
}

// Kinds of messages, given a number of them or the word `pids`.
fn one_word_shapes<'a>(pid: &'a str, word: &str) -> Option<Query<'a>>
    ensures { option_map shown_query result ≡ shapes_query pid.now (word.now ∷ []) }
{
    if is_pids(word) {
        return Some(Query::Shapes {
            pid,
            count: USUAL_ROWS,
            pids: true,
        });
    }
    counted_shapes(pid, false, word)
}

// Kinds of messages, given a number of them and what has to be the word `pids`.
fn two_word_shapes<'a>(pid: &'a str, count: &str, last: &str) -> Option<Query<'a>>
    ensures { option_map shown_query result ≡ shapes_query pid.now (count.now ∷ last.now ∷ []) }
{
    if !is_pids(last) {
        return None;
    }
    counted_shapes(pid, true, count)
}

fn shapes_query<'a>(pid: &'a str, words: &[String]) -> Option<Query<'a>>
    ensures { option_map shown_query result
        ≡ shapes_query pid.now (map string_bytes words.now) }
{
    match words {
        [] => Some(Query::Shapes {
            pid,
            count: USUAL_ROWS,
            pids: false,
        }),
        [word] => one_word_shapes(pid, word.as_str()),
        [count, last] => two_word_shapes(pid, count.as_str(), last.as_str()),
        _ => None,
    }
}

fn weigh_query<'a>(pid: &'a str, words: &[String]) -> Option<Query<'a>>
    ensures { option_map shown_query result
        ≡ weigh_query pid.now (map string_bytes words.now) }
{
    match words {
        [] => Some(Query::Weigh {
            pid,
            count: USUAL_ROWS,
        }),
        [count] => {
            let count = number_upto(count.as_str(), MOST_ROWS)?;
            Some(Query::Weigh { pid, count })
        }
        [count, addr] => {
            let count = number_upto(count.as_str(), MOST_ROWS)?;
            let addr = hex_u64(addr.as_bytes())?;
            Some(Query::WeighCell { pid, count, addr })
        }
        _ => None,
    }
}

fn heavy_query<'a>(pid: &'a str, words: &[String]) -> Option<Query<'a>>
    ensures { option_map shown_query result
        ≡ heavy_query pid.now (map string_bytes words.now) }
{
    match words {
        [] => Some(Query::Heavy {
            pid,
            count: USUAL_PARTS,
        }),
        [count] => {
            let count = number_upto(count.as_str(), MOST_ROWS)?;
            Some(Query::Heavy { pid, count })
        }
        _ => None,
    }
}

// The address that is the only one of some words.
fn only_address(words: &[String]) -> Option<u64>
    ensures { (form : List ℕ → ℕ → Ask) (pid : List ℕ)
        → option_map (form pid) result ≡ cell_query form pid (map string_bytes words.now) }
{
    let [addr] = words else {
        return None;
    };
    hex_u64(addr.as_bytes())
}

fn ext_query<'a>(pid: &'a str, words: &[String]) -> Option<Query<'a>>
    ensures { option_map shown_query result ≡ cell_query ext pid.now (map string_bytes words.now) }
{
    let addr = only_address(words)?;
    Some(Query::Ext { pid, addr })
}

fn fields_query<'a>(tag: &'a str, words: &'a [String]) -> Option<Query<'a>>
    ensures { option_map shown_query result
        ≡ fields_query tag.now (map string_bytes words.now) }
{
    let [key] = words else {
        return None;
    };
    Some(Query::Fields {
        tag,
        key: key.as_str(),
    })
}

fn path_query<'a>(pid: &'a str, words: &[String]) -> Option<Query<'a>>
    ensures { option_map shown_query result ≡ cell_query path pid.now (map string_bytes words.now) }
{
    let addr = only_address(words)?;
    Some(Query::Path { pid, addr })
}

// Whether an audit is full, from its last words.
fn full_of(words: &[String]) -> Option<bool>
    ensures { result ≡ full_of (map string_bytes words.now) }
{
    match words {
        [] => Some(false),
        [word] if word.as_str() == "full" => Some(true),
        _ => None,
    }
}

fn audit_query<'a>(limit: &str, words: &[String]) -> Option<Query<'a>>
    ensures { option_map shown_query result
        ≡ audit_query audit limit.now (map string_bytes words.now) }
{
    let limit = dec_u64(limit.as_bytes())?;
    let full = full_of(words)?;
    Some(Query::Audit { limit, full })
}

fn audit_json_query<'a>(limit: &str, words: &[String]) -> Option<Query<'a>>
    ensures { option_map shown_query result
        ≡ audit_query audit_json limit.now (map string_bytes words.now) }
{
    let limit = dec_u64(limit.as_bytes())?;
    let full = full_of(words)?;
    Some(Query::AuditJson { limit, full })
}

fn audit_settled_query<'a>(limit: &str, words: &[String]) -> Option<Query<'a>>
    ensures { option_map shown_query result
        ≡ audit_query audit_settled limit.now (map string_bytes words.now) }
{
    let limit = dec_u64(limit.as_bytes())?;
    let full = full_of(words)?;
    Some(Query::AuditSettled { limit, full })
}
