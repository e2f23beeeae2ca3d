// The binaries of a dump and their holders.
ghost use Rattle.std.specs.Prelude.{◌≡◌, ℕ, [], ◌∷◌, ◌+◌, ◌<◌, length, map, filter, nat_lt, All, IfOk, IfErr};
ghost use Rattle.std.specs.List.{count_by, sum_by};
ghost use Rattle.dump_io.specs.Dumps.{IfTold, ReadsAtMost};
ghost use Rattle.dump_io.specs.Faults.{IsReadCauseOf};
ghost use Rattle.dump_sections.specs.Index.{IsBuiltOver};
ghost use Rattle.process_table.specs.Processes.{AreProcessesOver};
ghost use Rattle.text_groups.specs.Sums.{capped};
ghost use Rattle.binary_holders.specs.Held.{whole_lines};
ghost use Rattle.text_groups.specs.Sorting.{most_first};
ghost use Rattle.binary_holders.specs.Usage.{NamesProcess, binaries_in, fronts_length, heaps_length, heaps_of, held_of, holders_in, lines_of, most_counted, pids_of, shown_use, stored_in, usage_of};
ghost use Rattle.binary_holders.specs.Inner.Finding.{numbers_of, stored_of};
ghost use Rattle.binary_holders.specs.Inner.Places.{numbers_in};
ghost use Rattle.binary_holders.specs.Inner.Rows.{AreRows, row_at};
ghost use Rattle.binary_holders.specs.Inner.Counting.{HasCounted, is_listed};

use crate::counts::Counts;
use crate::heap_holders::{Listed, count_all};
use crate::heap_places::heap_places;
use crate::heap_sink::HeapSink;
use crate::pushing::push_row;
use crate::rows::{BinaryRow, Holding, WholeLines};
use crate::stored::{StoredAt, find_stored, read_sizes};
use crate::targets::{Binary, Targets};
use body_lines::make_buffer;
use dump_io::{Dumps, ReadFault};
use dump_sections::Index;
use heap_cells::enc_of;
use process_table::Procs;
use std::alloc::{AllocError, Global};
use std::collections::BTreeMap;
use text_groups::{capped, sort_most_first, sort_most_first_twice};

/// The binaries outside the heaps, and the processes that hold them.
#[derive(Drop)]
pub struct BinaryUse {
    /// The processes whose heaps refer to binaries, stored or not, and those for which the node counted some: first
    /// those for which it counted the most bytes, where that is the same those that hold the most bytes of stored
    /// binaries, both by the whole numbers, and then the first in the dump.
    pub held: Vec<Holding>,
    /// The binaries, the largest first; of equal ones, the first in the dump first.
    pub binaries: Vec<BinaryRow>,
    /// The sizes of the binaries together; at most 2^64 - 1.
    pub bytes: u64,
    /// How many of the binaries are held by a process.
    pub with_holders: u64,
    /// How many lines of the heaps refer to binaries as a whole, and how many of them to none that is stored.
    pub lines: WholeLines,
    /// How many bytes of binaries the node counted for all processes together; at most 2^64 - 1.
    pub counted: u64,
}

// The row of a binary.
fn row_of(index: &Index, stored: &StoredAt, binary: &Binary, holders: u32) -> BinaryRow
    requires { stored.now.section < length index.now.headers }
    ensures { result ≡ row_at index.now stored.now binary.now holders }
{
    BinaryRow {
        size: binary.size,
        holders: u64::from(holders),
        number: stored.number,
        at: index.section(stored.section).at,
    }
}

// The rows of the binaries, in dump order.
fn rows_of(
    alloc: Global,
    index: &Index,
    stored: &[StoredAt],
    binaries: &[Binary],
    holders: &[u32],
) -> Result<Vec<BinaryRow>, ReadFault>
    requires within { All (λ binary. binary.section < length index.now.headers) stored.now }
    requires sizes { length binaries.now ≡ length stored.now }
    requires holders { length holders.now ≡ length stored.now }
    ensures rows { IfOk result (λ rows.
        AreRows index.now stored.now binaries.now holders.now (length stored.now) rows.items) }
    ensures fault { IfErr result (λ fault. fault ≡ ReadFault.Memory) }
{
    let mut rows = Vec::new(alloc);
    for k in 0..stored.len() {
        let row = row_of(index, &stored[k], &binaries[k], holders[k]);
        push_row(&mut rows, row)?;
    }
    Ok(rows)
}

// How many binaries have a holder.
fn count_held(rows: &[BinaryRow]) -> u64
    ensures { result ≡ count_by (λ row. nat_lt 0 row.holders) rows.now }
{
    rows.iter().filter(|row| row.holders > 0).count() as u64
}

// How many bytes of binaries the node counted for processes.
fn sum_counted(held: &[Holding]) -> u64
    ensures { result ≡ capped (sum_by (λ holding. holding.counted) held.now) }
{
    let mut sum = 0u128;
    for holding in held {
        sum = sum.saturating_add(holding.counted);
    }
    capped(sum)
}

// The rows of what was counted, those with the most first, how
// many binaries a process holds, and what the node counted.
fn sorted(
    mut held: Vec<Holding>,
    mut rows: Vec<BinaryRow>,
    bytes: u64,
    lines: WholeLines,
) -> Result<BinaryUse, ReadFault>
    ensures held { IfOk result (λ found. found.held.items ≡ most_counted held.items) }
    ensures counted { IfOk result (λ found.
        found.counted ≡ capped (sum_by (λ holding. holding.counted) held.items)) }
    ensures binaries { IfOk result (λ found.
        found.binaries.items ≡ most_first (λ row. row.size) rows.items) }
    ensures bytes { IfOk result (λ found. found.bytes ≡ bytes) }
    ensures lines { IfOk result (λ found. found.lines ≡ lines) }
    ensures with_holders { IfOk result (λ found.
        found.with_holders ≡ count_by (λ row. nat_lt 0 row.holders) rows.items) }
    ensures named { (count : ℕ) → All (NamesProcess count) held.items
        → IfOk result (λ found. All (NamesProcess count) found.held.items) }
    ensures fault { IfErr result (λ fault. fault ≡ ReadFault.Memory) }
{
    let with_holders = count_held(&rows);
    let counted = sum_counted(&held);
    sort_most_first_twice(&mut held)?;
    sort_most_first(&mut rows)?;
    Ok(BinaryUse {
        held,
        binaries: rows,
        bytes,
        with_holders,
        lines,
        counted,
    })
}

// What each listed process holds of these binaries, and how many processes hold each.
fn count_references<D: Dumps>(
    alloc: Global,
    dumps: &mut D,
    index: &Index,
    procs: &Procs,
    targets: &Targets,
    listed: Listed,
) -> Result<(Vec<Holding>, Counts), ReadFault>
    requires over { IsBuiltOver (D.state dumps.old).now index.now }
    requires procs { AreProcessesOver index.now procs.now }
    ensures reads { ReadsAtMost (D.state dumps.old) (D.state dumps.new)
        (heaps_length index.now (pids_of procs.now.processes)) }
    ensures fault { IfErr result (IsReadCauseOf (D.state dumps.old) (D.state dumps.new)) }
    ensures room { IfOk result (λ found. length found.1.holders.items ≡ length targets.now) }
    ensures held { IfOk result (λ found. IfTold (D.state dumps.old).now
        (λ dump. found.0.items ≡ filter (is_listed listed)
        (held_of dump index.now procs.now.processes targets.now))) }
    ensures named { IfOk result (λ found.
        All (NamesProcess (length procs.now.processes)) found.0.items) }
    ensures counted { IfOk result (λ found. IfTold (D.state dumps.old).now
        (λ dump. HasCounted targets.now
        (heaps_of dump index.now (pids_of procs.now.processes)) [] found.1)) }
    ensures lines { IfOk result (λ found. IfTold (D.state dumps.old).now
        (λ dump. found.1.lines
        ≡ whole_lines targets.now (lines_of dump index.now (pids_of procs.now.processes)))) }
{
    let heaps = heap_places(alloc, index, procs)?;
    let counts = Counts::new(alloc, targets.len())?;
    let mut buffer = make_buffer::<HeapSink<'_>>(alloc)?;
    let mut sink = HeapSink {
        enc: enc_of(index.version()),
        targets,
        counts,
    };
    let held = count_all(
        alloc,
        dumps,
        index,
        procs,
        heaps.as_slice(),
        listed,
        &mut buffer,
        &mut sink,
    )?;
    Ok((held, sink.counts))
}

// The stored binaries, whose references are counted, with their sizes.
fn stored_targets<D: Dumps>(
    alloc: Global,
    dumps: &mut D,
    index: &Index,
) -> Result<(Vec<StoredAt>, Targets), ReadFault>
    requires { IsBuiltOver (D.state dumps.old).now index.now }
    ensures reads { ReadsAtMost (D.state dumps.old) (D.state dumps.new) (fronts_length index.now) }
    ensures fault { IfErr result (IsReadCauseOf (D.state dumps.old) (D.state dumps.new)) }
    ensures within { IfOk result (λ found.
        All (λ binary. binary.section < length index.now.headers) found.0.items) }
    ensures stored { IfOk result (λ found.
        map (stored_of index.now) found.0.items ≡ stored_in index.now) }
    ensures numbers { IfOk result (λ found. numbers_in found.1 ≡ numbers_of found.0.items) }
    ensures sizes { IfOk result (λ found. IfTold (D.state dumps.old).now
        (λ dump. found.1 ≡ binaries_in dump index.now)) }
{
    let found = find_stored(alloc, index)?;
    let binaries = read_sizes(alloc, dumps, index, found.binaries.as_slice())?;
    let targets = Targets::new(alloc, binaries, found.places)?;
    Ok((found.binaries, targets))
}

/// Which processes hold how much of the binaries outside the heaps, what the node itself counted for each, and which
/// binaries are large.
///
/// What the node counted for a process is 8 bytes for each word of the sum of its fields `BinVHeap` and `OldBinVHeap`.
///
/// The stored binaries are the `binary` sections whose id is a hex number of 1 to 16 digits; of those with the same
/// number only the first counts. The size of one is the hex number of 1 to 16 digits before the `:` with which its body
/// begins, or 0 if the body doesn't begin so. A process holds one if the first `proc_heap` section of its pid has a heap
/// line whose form is a reference to a binary with that number, to the whole of it or to a part; each binary counts
/// once for a process, and each such line counts, whether the binary is stored or not.
///
/// The index was built over the open file, which stays open, and the processes are those of the
/// index. Returns `Read` only if the device's count of faults rose; `Memory` may come from any
/// allocation. Whatever it returns, at most as many bytes are read as the heaps have together, and
/// 17 of each `binary` section. The heaps are read one at a time, in pieces of at most 65,536 bytes.
pub fn binary_use<D: Dumps>(
    alloc: Global,
    dumps: &mut D,
    index: &Index,
    procs: &Procs,
) -> Result<BinaryUse, ReadFault>
    requires over { IsBuiltOver (D.state dumps.old).now index.now }
    requires procs { AreProcessesOver index.now procs.now }
    ensures reads { ReadsAtMost (D.state dumps.old) (D.state dumps.new)
        (fronts_length index.now + heaps_length index.now (pids_of procs.now.processes)) }
    ensures found { IfOk result (λ found. IfTold (D.state dumps.old).now
        (λ dump. shown_use found ≡ usage_of dump index.now procs.now.processes)) }
    ensures named { IfOk result (λ found.
        All (NamesProcess (length procs.now.processes)) found.held.items) }
    ensures fault { IfErr result (IsReadCauseOf (D.state dumps.old) (D.state dumps.new)) }
{
    let (stored, targets) = stored_targets(alloc, dumps, index)?;
    let (held, counts) = count_references(alloc, dumps, index, procs, &targets, Listed::Users)?;
    let list = stored.as_slice();
    let binaries = targets.binaries();
    let holders = counts.holders.as_slice();
    let rows = rows_of(alloc, index, list, binaries, holders)?;
    let bytes = capped(targets.total());
    sorted(held, rows, bytes, counts.lines)
}

// One binary whose references are counted, by its number alone.
fn one_target(alloc: Global, number: u64) -> Result<Targets, AllocError>
    ensures { IfOk result (λ targets. targets ≡ (record { number = number; size = 0 }) ∷ []) }
{
    let mut places = BTreeMap::new(alloc);
    places.insert(number, 0)?;
    let mut binaries = Vec::new(alloc);
    binaries.push(Binary { number, size: 0 })?;
    Targets::new(alloc, binaries, places)
}

/// Which processes hold the binary with this number, in dump order, by how many lines of their heaps,
/// and the address of the first of these, whether the binary is stored or not. What a process holds is counted
/// as in [`binary_use`], with 0 for the size; nothing of the `binary` sections is read.
///
/// The index was built over the open file, which stays open, and the processes are those
/// of the index. Returns `Read` only if the device's count of faults rose; `Memory` may
/// come from any allocation. Whatever it returns, at most as many bytes are read as the
/// heaps have together, one heap at a time, in pieces of at most 65,536 bytes.
pub fn holders<D: Dumps>(
    alloc: Global,
    dumps: &mut D,
    index: &Index,
    procs: &Procs,
    number: u64,
) -> Result<Vec<Holding>, ReadFault>
    requires over { IsBuiltOver (D.state dumps.old).now index.now }
    requires procs { AreProcessesOver index.now procs.now }
    ensures reads { ReadsAtMost (D.state dumps.old) (D.state dumps.new)
        (heaps_length index.now (pids_of procs.now.processes)) }
    ensures found { IfOk result (λ found. IfTold (D.state dumps.old).now
        (λ dump. found.items ≡ holders_in dump index.now procs.now.processes number)) }
    ensures named { IfOk result (λ found.
        All (NamesProcess (length procs.now.processes)) found.items) }
    ensures fault { IfErr result (IsReadCauseOf (D.state dumps.old) (D.state dumps.new)) }
{
    let targets = one_target(alloc, number)?;
    let (held, _counts) = count_references(alloc, dumps, index, procs, &targets, Listed::Holders)?;
    Ok(held)
}
