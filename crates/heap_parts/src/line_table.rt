// Where the first heap line with each address begins in a body.
ghost use Rattle.std.specs.Prelude.{◌≡◌, ℕ, ◌-◌, ◌≤◌, IfErr, IfOk, IsSome, is_some};
ghost use Rattle.std.specs.List.{between};
ghost use Rattle.std.specs.Ordering.{nat_cmp};
ghost use Rattle.dump_io.specs.Dumps.{size_of, IsOpen, ReadsAtMost, IfTold};
ghost use Rattle.dump_io.specs.Faults.{IsReadCauseOf};
ghost use Rattle.dump_sections.specs.Places.{place_by};
ghost use Rattle.heap_cells.specs.Places.{placed_lines, place_with};
ghost use Rattle.heap_parts.specs.Tables.{binary_lines, IsTableOf};

use crate::address_sink::AddressSink;
use body_lines::{LinesFault, hear_body, make_buffer};
use dump_io::{Dumps, ReadFault};
use dump_sections::FirstPlaces;
use std::alloc::Global;
use std::marker::Model;
use term_forms::{number_is_in_front, number_is_read};

// The addresses of the heap lines between two offsets of the open file, with the offsets
// at which they begin, and those of the lines that may be heap binaries.
fn hear_lines<D: Dumps>(
    alloc: Global,
    dumps: &mut D,
    from: u64,
    upto: u64,
) -> Result<AddressSink, ReadFault>
    requires open { IsOpen (D.state dumps.old).now }
    requires within { upto ≤ size_of (D.state dumps.old).now }
    requires ordered { from ≤ upto }
    ensures reads { ReadsAtMost (D.state dumps.old) (D.state dumps.new) (upto - from) }
    ensures fault { IfErr result (IsReadCauseOf (D.state dumps.old) (D.state dumps.new)) }
    ensures lines { IfOk result (λ sink. IfTold (D.state dumps.old).now (λ dump.
        sink.lines.items ≡ placed_lines from (between from upto dump))) }
    ensures binaries { IfOk result (λ sink. IfTold (D.state dumps.old).now (λ dump. (address : ℕ)
        → IsSome (place_with (binary_lines from (between from upto dump)) address)
        → IsSome (place_with sink.binaries.items address))) }
{
    number_is_in_front();
    number_is_read();
    let mut buffer = make_buffer::<AddressSink>(alloc)?;
    let mut sink = AddressSink {
        lines: Vec::new(alloc),
        binaries: Vec::new(alloc),
    };
    match hear_body(dumps, from, upto, &mut buffer, &mut sink) {
        Ok(()) => Ok(sink),
        Err(LinesFault::Read) => Err(ReadFault::Read),
        Err(LinesFault::Stopped(_)) => Err(ReadFault::Memory),
    }
}

/// Where the first heap line with each address begins in a body, and which addresses are those of lines that may be heap
/// binaries. Contracts see the addresses of its heap lines with the offsets at which these begin, in bytes of the file, those
/// of the lines that may be heap binaries once more, and how many heap lines there are.
#[derive(Drop)]
pub struct LineTable {
    places: FirstPlaces<u64>,
    binaries: FirstPlaces<u64>,
    count: usize,
}

impl Model for LineTable {
    ghost use Rattle.heap_parts.specs.Tables.{Table};

    ghost Value = { Table };

    ghost view = { λ table. record { places = table.places; binaries = table.binaries; count = table.count } };
}

impl LineTable {
    /// Reads the bytes of the open file between two offsets, in pieces of at most 65,536 bytes, whatever their
    /// number, and keeps of each heap line its address and its offset: 16 bytes, and as many more for a line that may
    /// be a heap binary. The tables are sorted once, in place.
    ///
    /// `Read` is returned only if the device's count of faults rose, and `Memory` may come from any
    /// allocation. Whatever it returns, no more bytes are read than lie between the offsets.
    pub fn read<D: Dumps>(
        alloc: Global,
        dumps: &mut D,
        from: u64,
        upto: u64,
    ) -> Result<LineTable, ReadFault>
        requires open { IsOpen (D.state dumps.old).now }
        requires within { upto ≤ size_of (D.state dumps.old).now }
        requires ordered { from ≤ upto }
        ensures reads { ReadsAtMost (D.state dumps.old) (D.state dumps.new) (upto - from) }
        ensures fault { IfErr result (IsReadCauseOf (D.state dumps.old) (D.state dumps.new)) }
        ensures table { IfOk result (λ table. IfTold (D.state dumps.old).now (λ dump.
            IsTableOf from (between from upto dump) table)) }
    {
        let heard = hear_lines(alloc, dumps, from, upto)?;
        let count = heard.lines.len();
        let places = FirstPlaces::of(heard.lines)?;
        let binaries = FirstPlaces::of(heard.binaries)?;
        Ok(LineTable {
            places,
            binaries,
            count,
        })
    }

    /// The offset at which the first heap line with the address begins. Returns `None` exactly when there is none.
    pub fn find(&self, address: u64) -> Option<u64>
        ensures { result ≡ place_by nat_cmp address self.now.places }
    {
        let place = self.places.get(address)?;
        Some(place as u64)
    }

    /// Whether a line with the address may be a heap binary: it is `true` if the first
    /// letter of one's form is `Y`, and may be so if the address has 16 digits.
    pub fn may_be_binary(&self, address: u64) -> bool
        ensures { result ≡ is_some (place_by nat_cmp address self.now.binaries) }
    {
        self.binaries.get(address).is_some()
    }

    /// How many heap lines the body has, including those with the address of an earlier one.
    pub fn count(&self) -> usize
        ensures { result ≡ self.now.count }
    {
        self.count
    }
}
