// The processes of a dump by the places at which they stand.
ghost use Rattle.std.specs.Prelude.{◌≡◌, [], ◌<◌, length, slice_index_or, All, IfOk, IfErr};
ghost use Rattle.dump_io.specs.Dumps.{IfTold, ReadsAtMost};
ghost use Rattle.dump_io.specs.Faults.{IsReadCauseOf};
ghost use Rattle.dump_sections.specs.Index.{IsBuiltOver};
ghost use Rattle.text_groups.specs.Sorting.{most_first};
ghost use Rattle.text_groups.specs.Groups.{groups};
ghost use Rattle.process_stacks.specs.Groups.{found_from, FitsStacks};
ghost use Rattle.process_stacks.specs.Rows.{stacks_length};
ghost use Rattle.process_stacks.specs.Inner.Reading.{AreStacksOf};

use crate::procs::StackProcs;
use crate::read_stands::read_stands;
use crate::stands::Stands;
use dump_io::{Dumps, ReadFault};
use dump_sections::{FirstSections, Index};
use std::alloc::Global;
use std::marker::Model;
use text_groups::{Grouped, TextGroup, group_texts, sort_most_first};

/// The processes of a dump by the places at which they stand.
#[derive(Drop)]
pub struct Stacks {
    stands: Stands,
    groups: Vec<TextGroup>,
}

impl Model for Stacks {
    ghost use Rattle.std.specs.Prelude.{map};
    ghost use Rattle.process_stacks.specs.Groups.{Found};

    ghost Value = { Found };

    ghost view = { λ s. record { places = map (λ i. i.text) s.stands.all.items; groups = s.groups.items } };
}

// The stacks of an index by their pids.
fn find_stacks<'a>(alloc: Global, index: &'a Index) -> Result<FirstSections<'a>, ReadFault>
    ensures stacks { IfOk result (AreStacksOf index.now) }
    ensures fault { IfErr result (λ fault. fault ≡ ReadFault.Memory) }
{
    Ok(FirstSections::find(alloc, index, b"proc_stack")?)
}

// The groups of these processes, the largest first.
fn sorted_groups(alloc: Global, stands: &Stands) -> Result<Vec<TextGroup>, ReadFault>
    ensures groups { IfOk result (λ found. found.items
        ≡ most_first (λ group. group.count) (groups stands.now.all.items)) }
    ensures firsts { IfOk result (λ found.
        All (λ group. group.first < length stands.now.all.items) found.items) }
    ensures fault { IfErr result (λ fault. fault ≡ ReadFault.Memory) }
{
    let mut groups = group_texts(alloc, stands)?;
    sort_most_first(&mut groups)?;
    Ok(groups)
}

impl Stacks {
    /// Reads the stacks of processes, and groups these by the places at which they stand.
    ///
    /// The place of a process is its first field `Program counter`, its first field `Current call`, of each at most
    /// the first 255 bytes, or nothing, and the frames of its stack. These are the first 20 infos of the first
    /// `proc_stack` section of its pid, of each at most the first 255 bytes. The largest group comes
    /// first; of equal ones that whose first process comes first in the dump.
    ///
    /// The index was built over the open file, which stays open, and the processes are those of the index.
    /// Returns `Read` only if the device's count of faults rose; `Memory` may come from any allocation. Whatever
    /// it returns, at most as many bytes are read as the stacks have together. They are read one at a time, in
    /// pieces of at most 65,536 bytes, into a buffer that grows only to hold a line that is longer.
    pub fn gather<D: Dumps>(
        alloc: Global,
        dumps: &mut D,
        index: &Index,
        procs: &StackProcs,
    ) -> Result<Stacks, ReadFault>
        requires { IsBuiltOver (D.state dumps.old).now index.now }
        ensures reads { ReadsAtMost (D.state dumps.old) (D.state dumps.new)
            (stacks_length index.now procs.now) }
        ensures found { IfOk result (λ stacks. IfTold (D.state dumps.old).now
            (λ dump. stacks ≡ found_from dump index.now procs.now)) }
        ensures fits { IfOk result (FitsStacks (length procs.now)) }
        ensures fault { IfErr result (IsReadCauseOf (D.state dumps.old) (D.state dumps.new)) }
    {
        let firsts = find_stacks(alloc, index)?;
        let stands = read_stands(alloc, dumps, index, &firsts, procs)?;
        let groups = sorted_groups(alloc, &stands)?;
        Ok(Stacks { stands, groups })
    }

    /// The groups of processes that stand at the same place, the largest first. The
    /// weight of a group is the memory of its processes together, in bytes.
    pub fn groups(&self) -> &[TextGroup]
        ensures { result.now ≡ self.now.groups }
    {
        self.groups.as_slice()
    }

    /// The lines of the place at which a process stands, by the place of the process among the others, from 0:
    /// `at`, a tab and the program counter, if there is one; `call`, a tab and the current call, if there
    /// is one; and for each frame `frame`, a tab and its text.
    pub fn place(&self, process: usize) -> &[u8]
        requires { process < length self.now.places }
        ensures { result.now ≡ slice_index_or self.now.places process [] }
    {
        self.stands.text(process)
    }
}
