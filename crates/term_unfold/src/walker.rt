// Judging and printing, any number of times, in memory that is taken once.
ghost use Rattle.std.specs.Prelude.{◌≡◌, ◌<◌, false, IfOk};
ghost use Rattle.dump_io.specs.Sinks.{Puts};
ghost use Rattle.term_forms.specs.Seen.{element};
ghost use Rattle.binary_refs.specs.Previews.{AreFor};
ghost use Rattle.term_unfold.specs.Trees.{verdict};
ghost use Rattle.term_unfold.specs.Walks.{new_walk, root_verdict, whole_text};

use crate::judging::first_bad;
use crate::path::Path;
use crate::printing::print_all;
use crate::verdict::Verdict;
use binary_refs::Previews;
use dump_io::{Failed, Sink};
use heap_cells::Heap;
use std::alloc::{AllocError, Global};
use std::marker::Model;
use term_forms::shapes::Elem;

/// Judges and prints terms of a heap.
#[derive(Drop)]
pub struct Walker<'h> {
    heap: &'h Heap,
    previews: &'h Previews,
    path: Path,
}

// Between two calls the walk is in no cell, and there is room for one more entry than the
// heap has cells. The previews have an entry for exactly those cells that refer to a binary.
impl<'h> Model for Walker<'h> {
    ghost use Rattle.term_unfold.specs.Inner.Entries.{IsIdle};
    ghost use Rattle.term_unfold.specs.Walks.{Walk};

    ghost Value = { Walk };

    ghost view = { λ w. record {
      heap = w.heap.now;
      previews = w.previews.now;
      reserved = w.path.reserved;
    } };

    ghost invariant = { λ w. IsIdle w.heap.now w.previews.now w.path };
}

impl<'h> Walker<'h> {
    /// A walker over a heap and its previews, which have an entry for exactly those cells that refer
    /// to a binary; the sizes that they state play no part. Takes all the memory that the walks
    /// need: room for exactly one more entry than there are cells, and one mark for each cell.
    pub fn new(
        alloc: Global,
        heap: &'h Heap,
        previews: &'h Previews,
    ) -> Result<Walker<'h>, AllocError>
        requires { AreFor heap.now.cells previews.now }
        ensures { IfOk result (λ walker. walker ≡ new_walk heap.now previews.now) }
    {
        let path = Path::new(alloc, heap.cells() as usize)?;
        Ok(Walker {
            heap,
            previews,
            path,
        })
    }

    /// The first bad node among the first `budget` nodes of what the root unfolds to. Takes no memory.
    pub fn judge(&mut self, root: Elem<'_>, budget: u32) -> Verdict
        requires { 0 < budget }
        ensures verdict { result ≡ root_verdict self.old.heap (element root.entry) budget }
        ensures same { self.new ≡ self.old }
    {
        let verdict = first_bad(self.heap, &mut self.path, &root, budget);
        self.path.clear();
        verdict
    }

    /// Writes the text of what the root unfolds to, over as many nodes as the budget allows.
    ///
    /// If `marked` is false, none of these nodes may be bad; otherwise a bad one is shown in
    /// its place. Takes no memory. Returns `Failed` only if the sink's count of faults rose;
    /// a proper prefix of the text was written then, and the walker can be used again.
    pub fn print<K: Sink>(
        &mut self,
        root: Elem<'_>,
        budget: u32,
        marked: bool,
        sink: &mut K,
    ) -> Result<(), Failed>
        requires budget { 0 < budget }
        requires clean { marked ≡ false
            → root_verdict self.old.heap (element root) budget ≡ Verdict.Clean }
        ensures puts { Puts (K.state sink.old) (K.state sink.new)
            (whole_text self.old.heap self.old.previews (element root.entry) budget) result }
        ensures same { self.new ≡ self.old }
    {
        let result = print_all(
            self.heap,
            self.previews,
            &mut self.path,
            &root,
            budget,
            sink,
        );
        Path::clear(&mut self.path);
        result
    }
}
