// The report of `shapes`.
ghost use Rattle.std.specs.Prelude.{◌≡◌, ◌<◌, length, take, All};
ghost use Rattle.std.specs.List.{flat_map};
ghost use Rattle.dump_io.specs.Sinks.{Puts};
ghost use Rattle.skeleton_commands.specs.Shapes.{shape_line, shapes_line, shapes_report};

use dump_io::{Failed, Piece, Sink};
use message_shapes::MailShapes;
use report_lines::put_line;
use text_groups::TextGroup;

// Writes the line of a group.
fn put_group<K: Sink>(sink: &mut K, shapes: &MailShapes, group: &TextGroup) -> Result<(), Failed>
    requires { group.now.first < length shapes.now.messages }
    ensures { Puts (K.state sink.old) (K.state sink.new) (shape_line shapes.now.messages group.now) result }
{
    put_line(
        sink,
        b"\t",
        &[
            Piece::Bytes(b"shape"),
            Piece::Dec(group.count),
            Piece::Dec(shapes.at(group.first)),
            Piece::Bytes(shapes.shape(group.first)),
        ],
    )
}

// The first groups, at most `most`.
fn first_groups(groups: &[TextGroup], most: u64) -> &[TextGroup]
    ensures { result.now ≡ take most groups.now }
{
    match groups.get(..most as usize) {
        Some(first) => first,
        None => groups,
    }
}

fn put_groups<K: Sink>(
    sink: &mut K,
    shapes: &MailShapes,
    groups: &[TextGroup],
) -> Result<(), Failed>
    requires { All (λ group. group.first < length shapes.now.messages) groups.now }
    ensures { Puts (K.state sink.old) (K.state sink.new)
        (flat_map (shape_line shapes.now.messages) groups.now) result }
{
    for group in groups {
        put_group(sink, shapes, group)?;
    }
    Ok(())
}

fn put_total<K: Sink>(sink: &mut K, shapes: &MailShapes) -> Result<(), Failed>
    ensures { Puts (K.state sink.old) (K.state sink.new)
        (shapes_line (length shapes.now.groups) (length shapes.now.messages)) result }
{
    put_line(
        sink,
        b" ",
        &[
            Piece::Bytes(b"shapes"),
            Piece::Dec(shapes.groups().len() as u64),
            Piece::Bytes(b"messages"),
            Piece::Dec(shapes.messages() as u64),
        ],
    )
}

/// Writes at most `most` groups of messages that have the same shape, in the order given. A group has a line
/// `shape COUNT OFFSET TEXT` with tabs between its parts: how many messages it has, the offset in the file of the
/// first of them, and their shape. The last line is `shapes K messages M`: how many groups and how many messages
/// there are in all.
///
/// Returns `Failed` only if the sink's count of faults rose; a proper prefix of the text was written then.
/// It takes no memory.
pub fn put_shapes<K: Sink>(sink: &mut K, shapes: &MailShapes, most: u64) -> Result<(), Failed>
    ensures { Puts (K.state sink.old) (K.state sink.new) (shapes_report most shapes.now) result }
{
    put_groups(sink, shapes, first_groups(shapes.groups(), most))?;
    put_total(sink, shapes)
}
