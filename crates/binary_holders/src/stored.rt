// The binaries outside the heaps, from the sections of a dump.
ghost use Rattle.std.specs.Prelude.{◌≡◌, ◌+◌, ◌*◌, ◌<◌, ◌≤◌, length, map, take, All, IfOk, OnOk, IfErr};
ghost use Rattle.dump_io.specs.Dumps.{DeviceFailed, IfTold, ReadsAtMost};
ghost use Rattle.dump_io.specs.Faults.{IsReadCauseOf};
ghost use Rattle.dump_sections.specs.Index.{IsBuiltOver, sections_in};
ghost use Rattle.binary_holders.specs.Usage.{sized_binary};
ghost use Rattle.binary_holders.specs.Inner.Finding.{AreFound, numbers_of, stored_of};
ghost use Rattle.binary_holders.specs.Inner.Places.{numbers_in};

use crate::pushing::push_row;
use crate::targets::Binary;
use binary_refs::{binary_number, read_size};
use dump_io::{Dumps, ReadFault};
use dump_sections::Index;
use std::alloc::{AllocError, Global};
use std::collections::BTreeMap;

/// A stored binary: its number, and the place of its section among those of the index.
#[derive(Clone, Copy, Drop)]
pub(crate) struct StoredAt {
    pub number: u64,
    pub section: usize,
}

/// The stored binaries in dump order, and the place of each by its number.
#[derive(Drop)]
pub(crate) struct Found {
    pub binaries: Vec<StoredAt>,
    pub places: BTreeMap<u64, u32>,
}

// Takes the section at a place, after those before it.
fn find_at(found: &mut Found, index: &Index, i: usize) -> Result<(), AllocError>
    requires place { i < length index.now.headers }
    requires few { length found.old.binaries.items < 4294967296 }
    requires before { AreFound index.now (take i (sections_in index.now)) found.old }
    ensures found { OnOk result
        (AreFound index.now (take (i + 1) (sections_in index.now)) found.new) }
    ensures grows { OnOk result
        (length found.new.binaries.items ≤ length found.old.binaries.items + 1) }
{
    let Some(number) = binary_number(index, i) else {
        return Ok(());
    };
    if found.places.contains_key(&number) {
        return Ok(());
    }
    let place = found.binaries.len() as u32;
    found.places.insert(number, place)?;
    found.binaries.push(StoredAt { number, section: i })?;
    Ok(())
}

/// Finds the stored binaries of an index: the first of the `binary` sections with each number.
pub(crate) fn find_stored(alloc: Global, index: &Index) -> Result<Found, AllocError>
    ensures { IfOk result (AreFound index.now (sections_in index.now)) }
{
    let mut found = Found {
        binaries: Vec::new(alloc),
        places: BTreeMap::new(alloc),
    };
    for i in 0..index.len() {
        find_at(&mut found, index, i)?;
    }
    Ok(found)
}

// Reads the size of a stored binary.
fn read_binary<D: Dumps>(
    dumps: &mut D,
    index: &Index,
    stored: &StoredAt,
) -> Result<Binary, ReadFault>
    requires over { IsBuiltOver (D.state dumps.old).now index.now }
    requires within { stored.now.section < length index.now.headers }
    ensures reads { ReadsAtMost (D.state dumps.old) (D.state dumps.new) 17 }
    ensures failed { IfErr result (λ fault.
        (fault ≡ ReadFault.Read) × DeviceFailed (D.state dumps.old) (D.state dumps.new)) }
    ensures number { IfOk result (λ binary. binary.number ≡ stored.now.number) }
    ensures size { IfOk result (λ binary. IfTold (D.state dumps.old).now
        (λ dump. binary ≡ sized_binary dump (stored_of index.now stored.now))) }
{
    let Ok(size) = read_size(dumps, index, stored.section) else {
        return Err(ReadFault::Read);
    };
    Ok(Binary {
        number: stored.number,
        size,
    })
}

/// Reads the sizes of stored binaries, in their order.
pub(crate) fn read_sizes<D: Dumps>(
    alloc: Global,
    dumps: &mut D,
    index: &Index,
    stored: &[StoredAt],
) -> Result<Vec<Binary>, ReadFault>
    requires over { IsBuiltOver (D.state dumps.old).now index.now }
    requires within { All (λ binary. binary.section < length index.now.headers) stored.now }
    ensures reads { ReadsAtMost (D.state dumps.old) (D.state dumps.new) (17 * length stored.now) }
    ensures fault { IfErr result (IsReadCauseOf (D.state dumps.old) (D.state dumps.new)) }
    ensures numbers { IfOk result (λ binaries. numbers_in binaries.items ≡ numbers_of stored.now) }
    ensures sizes { IfOk result (λ binaries. IfTold (D.state dumps.old).now
        (λ dump. binaries.items
        ≡ map (λ binary. sized_binary dump (stored_of index.now binary)) stored.now)) }
{
    let mut binaries = Vec::new(alloc);
    for binary in stored {
        let sized = read_binary(dumps, index, binary)?;
        push_row(&mut binaries, sized)?;
    }
    Ok(binaries)
}
