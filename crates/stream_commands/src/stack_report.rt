// The report of `stacks`.
ghost use Rattle.std.specs.Prelude.{◌≡◌, ◌<◌, length, take, All};
ghost use Rattle.std.specs.List.{flat_map};
ghost use Rattle.dump_io.specs.Sinks.{Puts};
ghost use Rattle.process_stacks.specs.Groups.{FitsStacks};
ghost use Rattle.text_groups.specs.declared.text_group.TextGroup.{TextGroup};
ghost use Rattle.section_rows.specs.Rows.{row_at};
ghost use Rattle.report_lines.specs.Lines.{text_or_dash};
ghost use Rattle.process_stacks.specs.Rows.{name_in};
ghost use Rattle.stream_commands.specs.Stacks.{group_line, group_lines, stacks_line, stacks_report};

use dump_io::{Failed, Piece, Sink, write_all};
use process_stacks::{StackProcs, Stacks};
use report_lines::put_line;
use text_groups::TextGroup;

// The name of the process at a place, or `-`.
fn name_of(procs: &StackProcs, i: usize) -> &[u8]
    requires { i < length procs.now }
    ensures { result.now ≡ text_or_dash (name_in (row_at procs.now i)) }
{
    procs.name(i).unwrap_or(b"-")
}

// Writes the line of a group.
fn put_group<K: Sink>(sink: &mut K, procs: &StackProcs, group: &TextGroup) -> Result<(), Failed>
    requires { group.now.first < length procs.now }
    ensures { Puts (K.state sink.old) (K.state sink.new) (group_line procs.now group.now) result }
{
    put_line(
        sink,
        b"\t",
        &[
            Piece::Bytes(b"stack"),
            Piece::Dec(group.count),
            Piece::Dec(group.weight),
            Piece::Bytes(procs.pid(group.first)),
            Piece::Bytes(name_of(procs, group.first)),
            Piece::Dec(procs.at(group.first)),
        ],
    )
}

// Writes the lines of a group.
fn put_lines<K: Sink>(
    sink: &mut K,
    procs: &StackProcs,
    stacks: &Stacks,
    group: &TextGroup,
) -> Result<(), Failed>
    requires first { group.now.first < length procs.now }
    requires places { length stacks.now.places ≡ length procs.now }
    ensures { Puts (K.state sink.old) (K.state sink.new)
        (group_lines procs.now stacks.now.places group.now) result }
{
    put_group(sink, procs, group)?;
    write_all(sink, stacks.place(group.first))
}

// The first groups, at most `most`.
fn first_groups(groups: &[TextGroup], most: u64) -> &[TextGroup]
    ensures { result.now ≡ take most groups.now }
{
    match groups.get(..most as usize) {
        Some(first) => first,
        None => groups,
    }
}

fn put_groups<K: Sink>(
    sink: &mut K,
    procs: &StackProcs,
    stacks: &Stacks,
    groups: &[TextGroup],
) -> Result<(), Failed>
    requires firsts { All (λ group. group.first < length procs.now) groups.now }
    requires places { length stacks.now.places ≡ length procs.now }
    ensures { Puts (K.state sink.old) (K.state sink.new)
        (flat_map (group_lines procs.now stacks.now.places) groups.now) result }
{
    for group in groups {
        put_lines(sink, procs, stacks, group)?;
    }
    Ok(())
}

fn put_total<K: Sink>(sink: &mut K, procs: &StackProcs, stacks: &Stacks) -> Result<(), Failed>
    ensures { Puts (K.state sink.old) (K.state sink.new)
        (stacks_line (length stacks.now.groups) (length procs.now)) result }
{
    put_line(
        sink,
        b" ",
        &[
            Piece::Bytes(b"stacks"),
            Piece::Dec(stacks.groups().len() as u64),
            Piece::Bytes(b"processes"),
            Piece::Dec(procs.len() as u64),
        ],
    )
}

/// Writes at most `most` groups of processes that stand at the same place, in the order given. A group has a
/// line `stack COUNT MEMORY PID NAME AT` with tabs between its parts: how many processes it has, their memory
/// in bytes, and pid, name or `-`, and the offset of the header of the section of the first of them. Behind
/// it come the lines of their place, as [`Stacks::place`] gives them. The last line is `stacks G processes P`:
/// how many groups and how many processes there are in all.
///
/// The groups are of these processes, as those of [`Stacks::gather`] are. Returns `Failed` only if the
/// sink's count of faults rose; a proper prefix of the text was written then. It takes no memory.
pub fn put_stacks<K: Sink>(
    sink: &mut K,
    procs: &StackProcs,
    stacks: &Stacks,
    most: u64,
) -> Result<(), Failed>
    requires { FitsStacks (length procs.now) stacks.now }
    ensures { Puts (K.state sink.old) (K.state sink.new)
        (stacks_report most procs.now stacks.now) result }
{
    put_groups(sink, procs, stacks, first_groups(stacks.groups(), most))?;
    put_total(sink, procs, stacks)
}
