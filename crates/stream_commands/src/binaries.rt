// `binaries`: which processes hold how much of the binaries outside the heaps.
ghost use Rattle.std.specs.Prelude.{◌≡◌, ◌<◌, length, None, IfOk, IfSome};
ghost use Rattle.dump_sections.specs.Bodies.{section_in};
ghost use Rattle.dump_sections.specs.Index.{sections_in, IsBuiltOver};
ghost use Rattle.dump_sections.specs.Loading.{large_fault, LoadsBodies};
ghost use Rattle.process_table.specs.Records.{proc_places};
ghost use Rattle.dump_questions.specs.Bodies.{ReadsBodies};
ghost use Rattle.dump_questions.specs.Meaning.{memory_section};
ghost use Rattle.stream_commands.specs.Inner.Loads.{node_sections, seen_use, AreNamed, HoldsNode};
ghost use Rattle.stream_commands.specs.Rows.{binaries_row};
ghost use Rattle.dump_questions.specs.Runs.{Runs};
ghost use Rattle.dump_questions.specs.Tasks.{question};

use binary_holders::{BinaryUse, binary_use};
use dump_io::{Dumps, Sink};
use dump_questions::status::DONE;
use dump_questions::{Body, Opened, Report, Stop, Unopened, read_found, run_report};
use dump_sections::{BodyFault, LargeSection, large_body};
use glance_text::put_binaries;
use process_table::{ProcSections, Procs};

#[derive(Clone, Copy)]
pub(crate) struct Binaries;

/// The body of the first section on memory, and the processes.
#[derive(Drop)]
pub struct Node {
    memory: Body,
    procs: Procs,
}

/// What was loaded of a node, and what its processes hold.
#[derive(Drop)]
pub struct NodeAndUses {
    node: Node,
    found: BinaryUse,
}

// Returns the first of the sections of a node whose body has more bytes than the limit.
fn large_section(
    at: &Opened<'_>,
    place: Option<usize>,
    found: &ProcSections,
) -> Option<LargeSection>
    requires memory { let index = at.now.index.now in
        section_in index place ≡ memory_section (sections_in index) }
    requires within { IfSome place (λ i. i < length at.now.index.now.headers) }
    requires found { found.now ≡ proc_places (sections_in at.now.index.now) }
    ensures { let sections = node_sections (sections_in at.now.index.now) in
        result ≡ large_fault at.now.limits.now.section sections }
{
    let memory = large_body(at.index, place, at.limits);
    let procs = found.large(at.index, at.limits);
    memory.or(procs)
}

// Reads the bodies of a node, none of which is too large, one after another.
fn read_node<D: Dumps>(
    at: &Opened<'_>,
    dumps: &mut D,
    place: Option<usize>,
    found: ProcSections,
) -> Result<Node, BodyFault>
    requires over { IsBuiltOver (D.state dumps.old).now at.now.index.now }
    requires memory { let index = at.now.index.now in
        section_in index place ≡ memory_section (sections_in index) }
    requires within { IfSome place (λ i. i < length at.now.index.now.headers) }
    requires found { found ≡ proc_places (sections_in at.now.index.now) }
    requires small { let sections = node_sections (sections_in at.now.index.now) in
        large_fault at.now.limits.now.section sections ≡ None }
    ensures reads { let sections = node_sections (sections_in at.now.index.now) in
        ReadsBodies sections (D.state dumps.old) (D.state dumps.new) result }
    ensures node { IfOk result (HoldsNode at.now.index.now (D.state dumps.old).now) }
{
    let memory = read_found(at, dumps, place)?;
    let procs = Procs::read(at.alloc, dumps, at.index, found, at.limits)?;
    Ok(Node { memory, procs })
}

// Loads the body of the first section on memory and the processes: all bodies are judged before one is read.
fn load_node<D: Dumps>(at: &Opened<'_>, dumps: &mut D) -> Result<Node, BodyFault>
    requires { IsBuiltOver (D.state dumps.old).now at.now.index.now }
    ensures loads { let sections = node_sections (sections_in at.now.index.now) in
        LoadsBodies D.state sections at.now.limits.now.section dumps.old dumps.new result }
    ensures node { IfOk result (HoldsNode at.now.index.now (D.state dumps.old).now) }
{
    let place = at.index.first_tag(b"memory");
    let Ok(found) = ProcSections::find(at.alloc, at.index) else {
        return Err(BodyFault::Memory);
    };
    if let Some(large) = large_section(at, place, &found) {
        return Err(BodyFault::from(large));
    }
    read_node(at, dumps, place, found)
}

impl Report for Binaries {
    type Loaded = NodeAndUses;

    ghost means = { λ _. binaries_row };

    ghost seen = { λ _ index loaded. seen_use index loaded };

    ghost fits = { λ _ index loaded. AreNamed index loaded.node.procs loaded.found.held.items };

    fn read<D: Dumps>(&self, at: &Opened<'_>, dumps: &mut D) -> Result<NodeAndUses, Stop> {
        let node = load_node(at, dumps)?;
        let found = binary_use(at.alloc, dumps, at.index, &node.procs)?;
        Ok(NodeAndUses { node, found })
    }

    fn put<K: Sink>(&self, at: &Opened<'_>, loaded: &NodeAndUses, out: &mut K) -> Result<u8, Stop> {
        let NodeAndUses { node, found } = loaded;
        put_binaries(
            out,
            at.index,
            node.memory.bytes.as_slice(),
            &node.procs,
            found,
        )?;
        Ok(DONE)
    }
}

/// Runs `binaries`, and returns its status.
pub fn run_binaries<D: Dumps, K: Sink>(
    dump: &Unopened<'_>,
    dumps: &mut D,
    out: &mut K,
) -> Result<u8, Stop>
    ensures { Runs (question dump.now.file.now binaries_row) dump.now.limits.now
        (D.state dumps.old) (D.state dumps.new) (K.state out.old) (K.state out.new) result }
{
    run_report(dump, &Binaries, dumps, out)
}
