// A device whose files are in memory, which can cut its reads and fail.
ghost use Rattle.std.specs.Prelude.{◌≡◌, ℕ, ◌-◌, ◌<◌, ◌≤◌, List, length, None, Some, min, is_err, is_ok, slice_get, IfOk, if◌then◌else◌};
ghost use Rattle.std.specs.Option.{option_and_then, option_copied};
ghost use Rattle.dump_io.specs.Count.{number_in-small};
ghost use Rattle.dump_io.specs.Counts.{plus_capped, risen_if};
ghost use Rattle.dump_io.specs.Dumps.{closed, opened, size_of, most_at, Opens, ReadsSome};
ghost use Rattle.dump_io.specs.File.{find_file, opened-small};
ghost use Rattle.dump_io.specs.MemDumps.{IsUnused, HoldsFile, bytes_at, cut_at, next_cut, files_of, now_of, calls_of, reads_of, state_of, fails_of, cuts_of, is_failing};

use crate::count::Count;
use crate::dumps::{Dumps, Failed};
use crate::file::DumpFile;
use std::alloc::{AllocError, Global};

/// A device that tells its files. Of two files with the same name the first counts.
///
/// The calls, opens and reads together, are numbered from 1; one whose number is in `fails` fails and raises
/// the count of faults. The reads that don't fail are numbered from 0; read number k gives as many bytes as it
/// can, but at most `cuts[k % cuts.len()]`, where a cut of 0 counts as 1. If `cuts` is empty, nothing is cut.
#[derive(Drop)]
pub struct MemDumps {
    files: Vec<DumpFile>,
    cuts: Vec<usize>,
    fails: Vec<u64>,
    place: Option<usize>,
    calls: Count,
    reads: Count,
    faults: Count,
    taken: Count,
}

impl MemDumps {
    /// A device with these files, no open file and counts of 0.
    pub fn new(files: Vec<DumpFile>, cuts: Vec<usize>, fails: Vec<u64>) -> MemDumps
        ensures files { (name : List ℕ) → files_of result name ≡ find_file files.items name }
        ensures unused { IsUnused cuts.items fails.items result }
    {
        MemDumps {
            files,
            cuts,
            fails,
            place: None,
            calls: Count::new(),
            reads: Count::new(),
            faults: Count::new(),
            taken: Count::new(),
        }
    }

    /// A device with copies of one file's name and bytes, and of
    /// `cuts` and `fails`. Returns `AllocError` if memory is lacking.
    pub fn holding(
        alloc: Global,
        name: &str,
        bytes: &[u8],
        cuts: &[usize],
        fails: &[u64],
    ) -> Result<MemDumps, AllocError>
        ensures file { IfOk result (HoldsFile name.now bytes.now) }
        ensures unused { IfOk result (IsUnused cuts.now fails.now) }
    {
        let file = DumpFile::new(
            String::from_str(alloc, name)?,
            Vec::from_slice(alloc, bytes)?,
        );
        Ok(MemDumps::new(
            vec![in alloc; file]?,
            Vec::from_slice(alloc, cuts)?,
            Vec::from_slice(alloc, fails)?,
        ))
    }

    /// How many bytes the device has given.
    pub fn taken(&self) -> u64
        ensures { result ≡ (state_of self.now).taken }
    {
        self.taken.number()
    }
}

fn place_of(files: &[DumpFile], name: &str) -> Option<usize>
    ensures { bytes_at files.now result ≡ find_file files.now name.now }
{
    for (i, file) in files.iter().enumerate() {
        if file.name.as_str() == name {
            return Some(i);
        }
    }
    None
}

fn bytes_at(files: &[DumpFile], place: Option<usize>) -> Option<&[u8]>
    ensures { option_copied result ≡ bytes_at files.now place }
{
    match place {
        None => None,
        Some(i) => match files.get(i) {
            None => None,
            Some(file) => Some(file.bytes.as_slice()),
        },
    }
}

fn cut(cuts: &[usize], read: u64, most: usize) -> usize
    requires { 1 ≤ most }
    ensures value { result ≡ cut_at cuts.now read most }
    ensures some { 1 ≤ result }
    ensures within { result ≤ most }
{
    if cuts.is_empty() {
        return most;
    }
    let k = (read % cuts.len() as u64) as usize;
    most.min(cuts[k].max(1))
}

impl Dumps for MemDumps {
    ghost state = { state_of };

    ghost small_size = { λ m. opened-small (option_and_then (slice_get m.files.items) m.place) };

    ghost small_taken = { λ m. number_in-small m.taken };

    fn open_dump(&mut self, name: &str) -> Result<u64, Failed>
        ensures opens { Opens (state_of self.old) (state_of self.new) name.now result }

        ensures number { calls_of self.new ≡ plus_capped (calls_of self.old) 1 }
        ensures reads { reads_of self.new ≡ reads_of self.old }
        ensures cuts { cuts_of self.new ≡ cuts_of self.old }
        ensures fails { fails_of self.new ≡ fails_of self.old }
        ensures count { (state_of self.new).faults ≡ risen_if (is_failing self.new)
            (state_of self.old).faults }
        ensures now { now_of self.new
            ≡ (if is_failing self.new then closed else opened (files_of self.old name.now)) }
    {
        self.place = None;
        self.calls.rise();
        if self.fails.contains(&self.calls.number()) {
            self.faults.rise();
            return Err(Failed);
        }
        self.place = place_of(&self.files, name);
        match bytes_at(&self.files, self.place) {
            None => Err(Failed),
            Some(bytes) => Ok(bytes.len() as u64),
        }
    }

    fn read_at(&mut self, at: u64, into: &mut [u8]) -> Result<usize, Failed>
        requires inside { at < size_of (now_of self.old) }
        requires room { 0 < length into.old }
        ensures reads_some { ReadsSome (state_of self.old) (state_of self.new) at into.new result }

        ensures number { calls_of self.new ≡ plus_capped (calls_of self.old) 1 }
        ensures reads { reads_of self.new ≡ risen_if (is_ok result) (reads_of self.old) }
        ensures cuts { cuts_of self.new ≡ cuts_of self.old }
        ensures fails { fails_of self.new ≡ fails_of self.old }
        ensures count { (state_of self.new).faults ≡ risen_if (is_failing self.new)
            (state_of self.old).faults }
        ensures failing { is_err result ≡ is_failing self.new }
        ensures cut { IfOk result (λ n. n ≡ next_cut self.old
            (most_at (now_of self.old) at into.old)) }
    {
        self.calls.rise();
        if self.fails.contains(&self.calls.number()) {
            self.faults.rise();
            return Err(Failed);
        }
        let Some(bytes) = bytes_at(&self.files, self.place) else {
            unreachable!()
        };
        let rest = &bytes[at as usize..];
        let n = cut(&self.cuts, self.reads.number(), rest.len().min(into.len()));
        into[..n].copy_from_slice(&rest[..n]);
        self.reads.rise();
        self.taken.add(n as u64);
        Ok(n)
    }
}
