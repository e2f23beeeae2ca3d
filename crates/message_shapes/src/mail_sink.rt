// Hearing the messages of a mailbox.
ghost use Rattle.std.specs.Prelude.{◌≡◌, ◌++◌, [], ◌∷◌, length, codes, IfErr, IfOk, OnOk};
ghost use Rattle.std.specs.Str.{bytes_eq};
ghost use Rattle.dump_io.specs.Dumps.{IfTold, ReadsAtMost};
ghost use Rattle.dump_io.specs.Faults.{IsReadCauseOf};
ghost use Rattle.dump_sections.specs.Bodies.{body_size, section_in, IsPlaceIn};
ghost use Rattle.dump_sections.specs.Index.{sections_in, IsBuiltOver};
ghost use Rattle.term_forms.specs.Seen.{element};
ghost use Rattle.root_views.specs.Seen.{content};
ghost use Rattle.root_views.specs.Sections.{root_section};
ghost use Rattle.root_views.specs.declared.kinds.RootKind.TheVariants.{Mail};
ghost use Rattle.message_shapes.specs.Messages.{mail_roots};
ghost use Rattle.message_shapes.specs.Inner.Hearing.{IsReady, Tells, TellsSection};
ghost use Rattle.message_shapes.specs.Inner.Telling.{content_origin, element_origin, roots_told, AreCells, OfText};
ghost use Rattle.tuple_fronts.specs.Shapes.{plain_with};

use crate::heard::Heard;
use dump_io::{Dumps, ReadFault};
use dump_sections::Index;
use heap_skeleton::Skeleton;
use root_views::{EachRoot, Root, RootKind, What, hear_roots};
use std::alloc::{AllocError, Global};
use term_forms::shapes::Elem;
use tuple_fronts::push_plain_with;

// Keeps the messages that it hears, with pids shown or not.
#[derive(Drop)]
struct MailSink<'a> {
    alloc: Global,
    skeleton: &'a Skeleton,
    pids: bool,
    heard: Heard,
}

// Whether this is the label of a message, and not that of its token.
fn is_message(label: &[u8]) -> bool
    ensures { result ≡ bytes_eq label.now (codes "m") }
{
    label == b"m".as_slice()
}

// Keeps a message of which the element leads to no cell.
fn hear_plain(
    alloc: Global,
    heard: &mut Heard,
    at: u64,
    e: &Elem<'_>,
    pids: bool,
) -> Result<(), AllocError>
    ensures { OnOk result (heard.new ≡ heard.old
        ++ record { at = at; source = OfText (plain_with pids (element e.now)) } ∷ []) }
{
    let mut text = Vec::new(alloc);
    push_plain_with(alloc, &mut text, e, pids)?;
    heard.push_text(at, &text)
}

// Keeps a message that is a term.
fn hear_term(
    alloc: Global,
    heard: &mut Heard,
    skeleton: &Skeleton,
    at: u64,
    e: &Elem<'_>,
    pids: bool,
) -> Result<(), AllocError>
    requires { AreCells (length skeleton.now.leads) heard.old }
    ensures cells { OnOk result (AreCells (length skeleton.now.leads) heard.new) }
    ensures heard { OnOk result (heard.new ≡ heard.old
        ++ record { at = at; source = element_origin pids skeleton.now.addresses (element e.now) } ∷ []) }
{
    if let Elem::Ref(address) = e {
        if let Some(cell) = skeleton.find(*address) {
            return heard.push_cell(at, cell);
        }
    }
    hear_plain(alloc, heard, at, e, pids)
}

// Keeps a message.
fn hear_message(
    alloc: Global,
    heard: &mut Heard,
    skeleton: &Skeleton,
    at: u64,
    what: &What<'_>,
    pids: bool,
) -> Result<(), AllocError>
    requires { AreCells (length skeleton.now.leads) heard.old }
    ensures cells { OnOk result (AreCells (length skeleton.now.leads) heard.new) }
    ensures heard { OnOk result (heard.new ≡ heard.old
        ++ record { at = at; source = content_origin pids skeleton.now.addresses (content what.now) } ∷ []) }
{
    match what {
        What::Term(e) => hear_term(alloc, heard, skeleton, at, e, pids),
        What::Dist(_) => heard.push_text(at, b"distribution()"),
        What::Info(_) | What::Unread => heard.push_text(at, b"?"),
    }
}

impl EachRoot for MailSink<'_> {
    ghost ready = { IsReady };

    ghost hears = { Tells };

    fn root(&mut self, found: &Root<'_>) -> Result<(), AllocError> {
        if is_message(found.label) {
            hear_message(
                self.alloc,
                &mut self.heard,
                self.skeleton,
                found.at as u64,
                &found.what,
                self.pids,
            )?;
        }
        Ok(())
    }
}

// Hears the roots in the section at `place`. A missing section has none.
fn hear_section<D: Dumps>(
    dumps: &mut D,
    index: &Index,
    place: Option<usize>,
    buffer: &mut Vec<u8>,
    sink: &mut MailSink<'_>,
) -> Result<(), ReadFault>
    requires over { IsBuiltOver (D.state dumps.old).now index.now }
    requires place { IsPlaceIn index.now place }
    requires ready { IsReady sink.old }
    ensures reads { ReadsAtMost (D.state dumps.old) (D.state dumps.new)
        (body_size (section_in index.now place)) }
    ensures fault { IfErr result (IsReadCauseOf (D.state dumps.old) (D.state dumps.new)) }
    ensures ready { OnOk result (IsReady sink.new) }
    ensures tells { OnOk result (TellsSection (D.state dumps.old).now
        (section_in index.now place) sink.old sink.new) }
{
    let (from, upto) = index.body_at(place);
    hear_roots(dumps, from, upto, RootKind::Mail, buffer, sink)?;
    Ok(())
}

/// Reads the mailbox of a process once and in pieces, and returns its messages, given the skeleton of the heap.
pub(crate) fn hear_mail<D: Dumps>(
    alloc: Global,
    dumps: &mut D,
    index: &Index,
    pid: &[u8],
    skeleton: &Skeleton,
    pids: bool,
) -> Result<Heard, ReadFault>
    requires { IsBuiltOver (D.state dumps.old).now index.now }
    ensures reads { ReadsAtMost (D.state dumps.old) (D.state dumps.new)
        (body_size (root_section Mail pid.now (sections_in index.now))) }
    ensures fault { IfErr result (IsReadCauseOf (D.state dumps.old) (D.state dumps.new)) }
    ensures cells { IfOk result (AreCells (length skeleton.now.leads)) }
    ensures heard { IfOk result (λ heard. IfTold (D.state dumps.old).now (λ dump.
        heard ≡ roots_told pids skeleton.now.addresses (mail_roots dump index.now pid.now))) }
{
    let mut buffer = Vec::new(alloc);
    let mut sink = MailSink {
        alloc,
        skeleton,
        pids,
        heard: Heard::new(alloc),
    };
    let place = index.first(RootKind::Mail.tag(), Some(pid));
    hear_section(dumps, index, place, &mut buffer, &mut sink)?;
    let MailSink { mut heard, .. } = sink;
    heard.shrink();
    Ok(heard)
}
