// The shapes of the messages in a mailbox.
ghost use Rattle.std.specs.Prelude.{◌≡◌, ◌*◌, ◌+◌, ◌<◌, All, length, IfErr, IfOk};
ghost use Rattle.dump_io.specs.Dumps.{IfTold, ReadsAtMost};
ghost use Rattle.dump_io.specs.Faults.{IsReadCauseOf};
ghost use Rattle.dump_sections.specs.Bodies.{body_size};
ghost use Rattle.dump_sections.specs.Index.{sections_in, IsBuiltOver};
ghost use Rattle.dump_sections.specs.Loading.{bodies_length};
ghost use Rattle.heap_cells.specs.Loading.{heap_bodies};
ghost use Rattle.heap_skeleton.specs.Skeletons.{skeleton_for};
ghost use Rattle.root_views.specs.Sections.{root_section};
ghost use Rattle.root_views.specs.declared.kinds.RootKind.TheVariants.{Mail};
ghost use Rattle.tuple_fronts.specs.Fronts.{cells_for};
ghost use Rattle.message_shapes.specs.Messages.{mail_roots, mail_shapes, message_at, messages_of, shape_groups};
ghost use Rattle.message_shapes.specs.Inner.Telling.{roots_told, AreCells};

use crate::heard::Heard;
use crate::mail_cells::subject_cells;
use crate::mail_sink::hear_mail;
use crate::messages::Messages;
use dump_io::{Dumps, ReadFault};
use dump_sections::Index;
use heap_skeleton::Skeleton;
use std::alloc::{AllocError, Global};
use std::marker::Model;
use text_groups::{TextGroup, sort_most_first};
use tuple_fronts::cell_shapes_with;

/// The messages of a mailbox with their shapes, and the groups of those that have the same. Contracts see both.
#[derive(Drop)]
pub struct MailShapes {
    messages: Messages,
    groups: Vec<TextGroup>,
}

impl Model for MailShapes {
    ghost use Rattle.std.specs.Prelude.{◌<◌, All, length};
    ghost use Rattle.message_shapes.specs.Messages.{ShapeMap};
    ghost use Rattle.text_groups.specs.declared.text_group.TextGroup.{TextGroup};

    ghost Value = { ShapeMap };

    ghost view = { λ s. record { messages = s.messages; groups = s.groups.items } };

    ghost invariant = { λ s. All (λ (group : TextGroup). group.first < length s.messages) s.groups.items };
}

// Messages with the shapes of the cells to which they refer. Reads the heap once more.
fn shape_messages<D: Dumps>(
    alloc: Global,
    dumps: &mut D,
    index: &Index,
    pid: &[u8],
    skeleton: &Skeleton,
    heard: Heard,
    pids: bool,
) -> Result<Messages, ReadFault>
    requires over { IsBuiltOver (D.state dumps.old).now index.now }
    requires cells { AreCells (length skeleton.now.leads) heard }
    requires skeleton { IfTold (D.state dumps.old).now
        (λ dump. skeleton.now ≡ skeleton_for dump index.now pid.now) }
    requires heard { IfTold (D.state dumps.old).now (λ dump.
        heard ≡ roots_told pids skeleton.now.addresses (mail_roots dump index.now pid.now)) }
    ensures reads { ReadsAtMost (D.state dumps.old) (D.state dumps.new)
        (bodies_length (heap_bodies pid.now (sections_in index.now))) }
    ensures fault { IfErr result (IsReadCauseOf (D.state dumps.old) (D.state dumps.new)) }
    ensures messages { IfOk result (λ messages. IfTold (D.state dumps.old).now (λ dump.
        messages ≡ messages_of pids (cells_for dump index.now pid.now) (mail_roots dump index.now pid.now))) }
{
    let cells = subject_cells(alloc, &heard)?;
    let shapes = cell_shapes_with(alloc, dumps, index, pid, skeleton, &cells, pids)?;
    Ok(Messages {
        heard,
        cells,
        shapes,
    })
}

// The groups of messages with the same shape, the largest first.
fn sorted_groups(alloc: Global, messages: &Messages) -> Result<Vec<TextGroup>, AllocError>
    ensures groups { IfOk result (λ groups. groups.items ≡ shape_groups messages.now) }
    ensures firsts { IfOk result (λ groups. All (λ group. group.first < length messages.now) groups.items) }
{
    let mut groups = messages.groups(alloc)?;
    sort_most_first(&mut groups)?;
    Ok(groups)
}

impl MailShapes {
    /// Reads the mailbox of a process and its heap, and returns its messages with their shapes. With `pids` a pid is
    /// shown by its text, of which at most the first 255 bytes count, where it is the message, an element of a tuple to
    /// which the message refers, or one of a tuple inside that; pids of other nodes, to which these refer, are not. The process
    /// need not be there; a missing section counts as empty. The index was built over the open file, which stays open.
    ///
    /// The mailbox is read once, and the heap and the literals twice, in pieces of at most 65,536 bytes. Nothing that they
    /// hold is refused. Whatever it returns, at most as many bytes are read as the mailbox has, and twice those of the heap
    /// and of the literals. Returns `Read` only if the device's count of faults rose.
    ///
    /// Beside the skeleton it keeps 16 bytes for each message; for each different cell to which one refers 16 bytes and its
    /// shape, of at most 2,213 bytes; and for each tuple among these cells and among their first 8 elements the texts of
    /// its own first 8 elements, as the dump spells them, and its shape inside a message, of at most 275 bytes. Each
    /// different shape of a message without a cell is kept twice. While messages are grouped, 4 bytes are added for each,
    /// and an entry of a tree for each different shape; a list that grows has room for as much again. So the memory is
    /// linear in the bytes of the sections, and the time n log n: a shape is made and looked up once for each cell, and
    /// not for each message. The most by far is a shape of 2,213 bytes for a line of some 40: eight references to a tuple
    /// with a long atom. Where pids are shown that is 16,437 bytes for eight references to a tuple with eight long pids, of
    /// which the shape inside a message has 2,053; those of a node have less than 20.
    ///
    /// `Memory` may come from any allocation, and comes where a [`Skeleton`] can't hold the heap, or one of four pools of
    /// texts would have 4 GiB or more: the first elements of tuples, the shapes of these tuples inside messages, the shapes
    /// of the different cells, equal ones too, and the different shapes of messages without a cell.
    pub fn load<D: Dumps>(
        alloc: Global,
        dumps: &mut D,
        index: &Index,
        pid: &[u8],
        pids: bool,
    ) -> Result<MailShapes, ReadFault>
        requires { IsBuiltOver (D.state dumps.old).now index.now }
        ensures reads { let sections = sections_in index.now in
            ReadsAtMost (D.state dumps.old) (D.state dumps.new)
            (body_size (root_section Mail pid.now sections) + 2 * bodies_length (heap_bodies pid.now sections)) }
        ensures fault { IfErr result (IsReadCauseOf (D.state dumps.old) (D.state dumps.new)) }
        ensures shapes { IfOk result (λ shapes. IfTold (D.state dumps.old).now
            (λ dump. shapes ≡ mail_shapes pids dump index.now pid.now)) }
    {
        let skeleton = Skeleton::load(alloc, dumps, index, pid)?;
        let heard = hear_mail(alloc, dumps, index, pid, &skeleton, pids)?;
        let messages = shape_messages(alloc, dumps, index, pid, &skeleton, heard, pids)?;
        let groups = sorted_groups(alloc, &messages)?;
        Ok(MailShapes { messages, groups })
    }

    /// The groups of messages that have the same shape, the largest first; of equal ones that
    /// whose first message comes first.
    pub fn groups(&self) -> &[TextGroup]
        ensures value { result.now ≡ self.now.groups }
        ensures firsts { All (λ group. group.first < length self.now.messages) result.now }
    {
        self.groups.as_slice()
    }

    /// How many messages there are.
    pub fn messages(&self) -> usize
        ensures { result ≡ length self.now.messages }
    {
        self.messages.count()
    }

    /// The offset in the file of the line of a message, by its place among the messages from 0.
    pub fn at(&self, message: usize) -> u64
        requires { message < length self.now.messages }
        ensures { result ≡ (message_at self.now.messages message).at }
    {
        self.messages.at(message)
    }

    /// The shape of a message, by its place among the messages from 0.
    pub fn shape(&self, message: usize) -> &[u8]
        requires { message < length self.now.messages }
        ensures { result.now ≡ (message_at self.now.messages message).shape }
    {
        self.messages.shape(message)
    }
}
