// A good dump that is held in memory.
ghost use Rattle.std.specs.Prelude.{◌≡◌, ◌≤◌, length, All, IfOk};
ghost use Rattle.dump_io.specs.Limits.{usual};
ghost use Rattle.process_table.specs.Processes.{IsProcessIn, process_table};
ghost use Rattle.binary_refs.specs.Previews.{AreFor};
ghost use Rattle.dump_sections.specs.Index.{IsIndexOf};
ghost use Rattle.heap_cells.specs.DumpHeaps.{heap_map};
ghost use Rattle.dump_trial.specs.Trial.{root_body};
ghost use Rattle.dump_trial.specs.Inner.GoodDumps.{IsGood};

use crate::finder::Finder;
use crate::only_memory;
use binary_refs::Previews;
use dump_io::{DumpFile, HeldDump, Limits};
use dump_sections::{Index, read_body};
use heap_cells::Heap;
use process_table::Procs;
use root_views::RootKind;
use section_index::build;
use std::alloc::{AllocError, Global};
use std::marker::Model;

// The name under which the dump is held.
const NAME: &str = "made";

/// A good dump that is held in memory and open. Contracts see its bytes.
#[derive(Drop)]
pub(crate) struct GoodDump {
    dumps: HeldDump,
    limits: Limits,
}

impl Model for GoodDump {
    ghost use Rattle.std.specs.Prelude.{ℕ, List};
    ghost use Rattle.dump_io.specs.HeldDump.{now_of};
    ghost use Rattle.dump_trial.specs.Inner.GoodDumps.{bytes_in, IsOpened};

    ghost Value = { List ℕ };

    ghost view = { λ held. bytes_in (now_of held.dumps) };

    ghost invariant = { λ held. IsOpened (now_of held.dumps) held.limits };
}

impl GoodDump {
    /// Holds the bytes of a good dump, opens it and returns it with its index.
    pub(crate) fn open(alloc: Global, bytes: Vec<u8>) -> Result<(GoodDump, Index), AllocError>
        requires { IsGood bytes.items }
        ensures held { IfOk result (λ opened. opened.0 ≡ bytes.items) }
        ensures index { IfOk result (λ opened. IsIndexOf bytes.items opened.1) }
    {
        let limits = Limits::usual();
        let name = String::from_str(alloc, NAME)?;
        let mut dumps = HeldDump::new(DumpFile::new(name, bytes));
        match build(alloc, &mut dumps, NAME, &limits) {
            Ok(index) => Ok((GoodDump { dumps, limits }, index)),
            Err(fault) => Err(only_memory::of_opening(fault)),
        }
    }

    /// The processes of the dump.
    pub(crate) fn procs(&mut self, alloc: Global, index: &Index) -> Result<Procs, AllocError>
        requires { IsIndexOf self.old index.now }
        ensures table { IfOk result (λ procs. procs ≡ process_table self.old) }
        ensures named { IfOk result (λ procs. All (IsProcessIn index.now) procs.processes) }
        ensures same { self.new ≡ self.old }
    {
        match Procs::load(alloc, &mut self.dumps, index, &self.limits) {
            Ok(procs) => Ok(procs),
            Err(fault) => Err(only_memory::of_body(fault)),
        }
    }

    /// The body of the first section that holds the roots of
    /// this kind and pid. A missing section counts as empty.
    pub(crate) fn root_body(
        &mut self,
        alloc: Global,
        finder: &Finder<'_>,
        kind: RootKind,
        pid: &[u8],
    ) -> Result<Vec<u8>, AllocError>
        requires { IsIndexOf self.old finder.now }
        ensures body { IfOk result (λ body. body.items ≡ root_body self.old kind pid.now) }
        ensures few { IfOk result (λ body. length body.items ≤ usual.section) }
        ensures same { self.new ≡ self.old }
    {
        let Some(i) = finder.roots(kind, pid) else {
            return Ok(Vec::new(alloc));
        };
        match read_body(alloc, &mut self.dumps, finder.index(), i, &self.limits) {
            Ok(body) => Ok(body),
            Err(fault) => Err(only_memory::of_body(fault)),
        }
    }

    /// The heap of a pid.
    pub(crate) fn heap(
        &mut self,
        alloc: Global,
        finder: &Finder<'_>,
        pid: &[u8],
    ) -> Result<Heap, AllocError>
        requires { IsIndexOf self.old finder.now }
        ensures cells { IfOk result (λ heap. heap.cells ≡ (heap_map pid.now self.old).cells) }
        ensures same { self.new ≡ self.old }
    {
        let place = finder.heap(pid);
        let literals = finder.literals();
        match Heap::load_at(
            alloc,
            &mut self.dumps,
            finder.index(),
            place,
            literals,
            &self.limits,
        ) {
            Ok(heap) => Ok(heap),
            Err(fault) => Err(only_memory::of_heap(fault)),
        }
    }

    /// The previews of a heap.
    pub(crate) fn previews(
        &mut self,
        alloc: Global,
        finder: &Finder<'_>,
        heap: &Heap,
    ) -> Result<Previews, AllocError>
        requires { IsIndexOf self.old finder.now }
        ensures each { IfOk result (AreFor heap.now.cells) }
        ensures same { self.new ≡ self.old }
    {
        match Previews::load_with(alloc, &mut self.dumps, finder.binaries(), heap) {
            Ok(previews) => Ok(previews),
            Err(fault) => Err(only_memory::of_previews(fault)),
        }
    }
}
