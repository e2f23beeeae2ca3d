// The numbers of cells by address.
ghost use Rattle.std.specs.Prelude.{◌≡◌, ◌<◌, ◌≤◌, true, length, map, IfOk, ◌^◌, [], OnOk};
ghost use Rattle.std.specs.List.Sorted.{IsNonDecreasingBy};
ghost use Rattle.cell_records.specs.Order.{address_in, number_with, IsOrder, AreAddressPairs, AreAllFirst, AreRanked};
ghost use Rattle.cell_records.specs.Inner.Places.{IsPointOf, StandsAt};

use crate::located::Located;
use crate::ranks::Ranks;
use std::alloc::{AllocError, Global};

fn address_of<T: Located>(cells: &[T], n: u32) -> u64
    ensures { result ≡ address_in (map T.address cells.now) n }
{
    match cells.get(n as usize) {
        Some(cell) => cell.address(),
        None => 0,
    }
}

// How many of the numbers belong to cells with a lower address: these come first.
fn count_below<T: Located>(order: &[u32], cells: &[T], address: u64) -> usize
    requires { IsNonDecreasingBy (address_in (map T.address cells.now)) order.now }
    ensures within { result ≤ length order.now }
    ensures point { IsPointOf (map T.address cells.now) address order.now result }
{
    order.partition_point(|n| address_of(cells, *n) < address)
}

/// The number of the first cell with an address, given the numbers of all cells in
/// the order of their addresses, as [`Ranks::numbers`] returns those of ranked cells.
pub fn number_of<T: Located>(order: &[u32], cells: &[T], address: u64) -> Option<u32>
    requires few { length cells.now < 2 ^ 32 }
    requires order { IsOrder (map T.address cells.now) order.now }
    ensures { result ≡ number_with (map T.address cells.now) address }
{
    let at = count_below(order, cells, address);
    let number = *order.get(at)?;
    if address_of(cells, number) == address {
        Some(number)
    } else {
        None
    }
}

// Appends the address of each cell, with the cell's number.
fn push_pairs<T: Located>(alloc: Global, pairs: &mut Ranks, cells: &[T]) -> Result<(), AllocError>
    requires few { length cells.now < 2 ^ 32 }
    requires none { pairs.old ≡ [] }
    ensures { OnOk result (AreAddressPairs (map T.address cells.now) pairs.new) }
{
    for i in 0..cells.len() {
        let number = i as u32;
        pairs.push(alloc, address_of(cells, number), number)?;
    }
    Ok(())
}

// The address of each cell, with the cell's number.
fn pairs_of<T: Located>(alloc: Global, cells: &[T]) -> Result<Ranks, AllocError>
    requires { length cells.now < 2 ^ 32 }
    ensures { IfOk result (AreAddressPairs (map T.address cells.now)) }
{
    let mut pairs = Ranks::around(alloc, address_of(cells, 0), cells.len(), cells.len())?;
    push_pairs(alloc, &mut pairs, cells)?;
    Ok(pairs)
}

/// The address of each cell with its number, sorted by address and then by number.
pub fn ranks_of<T: Located>(alloc: Global, cells: &[T]) -> Result<Ranks, AllocError>
    requires { length cells.now < 2 ^ 32 }
    ensures { IfOk result (AreRanked (map T.address cells.now)) }
{
    let mut ranks = pairs_of(alloc, cells)?;
    ranks.sort();
    Ok(ranks)
}

// Whether there is a cell with this number, and it has this address.
pub(crate) fn stands_at<T: Located>(cells: &[T], number: u32, address: u64) -> bool
    ensures { result ≡ true → StandsAt (map T.address cells.now) number address }
{
    match cells.get(number as usize) {
        Some(cell) => cell.address() == address,
        None => false,
    }
}

// The number of the cell with an address, where no two cells have the same address. The cell
// with the number `near` is looked at first, which saves the search if it is that one.
pub(crate) fn number_near<T: Located>(
    ranks: &Ranks,
    cells: &[T],
    near: u32,
    address: u64,
) -> Option<u32>
    requires ranked { AreRanked (map T.address cells.now) ranks.now }
    requires distinct { AreAllFirst (map T.address cells.now) }
    ensures { result ≡ number_with (map T.address cells.now) address }
{
    if stands_at(cells, near, address) {
        return Some(near);
    }
    ranks.find(address)
}
