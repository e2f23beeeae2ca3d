// Groups of processes that stand at the same place, and of ports that are the same.
ghost use Rattle.std.specs.Prelude.{◌≡◌, ◌<◌, [], filter, length, unwrap_or, All, IfOk};
ghost use Rattle.section_rows.specs.Rows.{row_at};
ghost use Rattle.process_table.specs.Numbers.{stated_number};
ghost use Rattle.process_table.specs.Processes.{process_at};
ghost use Rattle.dump_triage.specs.Triage.{first_groups, has_use, is_several, largest_groups, largest_ports, port_item, stand_item, stand_items, stand_text};

use crate::shown::shown_text;
use process_table::{Procs, Stands, stated_number};
use std::alloc::{AllocError, Global};
use std::marker::Model;
use table_sections::Rows;
use text_groups::{Grouped, TextGroup, cut_text, group_texts, sort_most_first};

// A process: where it stands and as what it was spawned, as one text, and its memory in bytes.
#[derive(Drop)]
struct Stand {
    text: Vec<u8>,
    memory: u64,
}

impl Model for Stand {
    ghost use Rattle.text_groups.specs.Groups.{Item};

    ghost Value = { Item };

    ghost view = { λ s. record { text = s.text.items; weight = s.memory } };
}

impl Stand {
    fn text(&self) -> &[u8]
        ensures { result.now ≡ self.now.text }
    {
        self.text.as_slice()
    }

    fn memory(&self) -> u64
        ensures { result ≡ self.now.weight }
    {
        self.memory
    }
}

// The processes, which are grouped by where they stand.
#[derive(Drop)]
struct Standing {
    all: Vec<Stand>,
}

impl Grouped for Standing {
    ghost items = { λ standing. standing.all.items };

    fn len(&self) -> usize {
        self.all.len()
    }

    fn text(&self, i: usize) -> &[u8] {
        self.all[i].text()
    }

    fn weight(&self, i: usize) -> u64 {
        self.all[i].memory()
    }
}

// Where the process at a place stands, and as what it was spawned, as one text.
fn stand_text(alloc: Global, stands: &Stands, p: usize) -> Result<Vec<u8>, AllocError>
    requires { p < length stands.now }
    ensures { IfOk result (λ text. text.items ≡ stand_text (row_at stands.now p)) }
{
    let mut text = Vec::from_slice(alloc, shown_text(stands.place(p)))?;
    text.push(b'\n')?;
    text.extend_from_slice(shown_text(stands.spawned(p)))?;
    Ok(text)
}

// The process at a place, as it is grouped.
fn stand_at(alloc: Global, procs: &Procs, stands: &Stands, p: usize) -> Result<Stand, AllocError>
    requires process { p < length procs.now.processes }
    requires stand { p < length stands.now }
    ensures { IfOk result (λ stand.
        stand ≡ stand_item stands.now (p, process_at procs.now.processes p)) }
{
    let text = stand_text(alloc, stands, p)?;
    let memory = stated_number(&procs.at(p).memory).unwrap_or(0);
    Ok(Stand { text, memory })
}

// The processes, as they are grouped.
fn find_stands(alloc: Global, procs: &Procs, stands: &Stands) -> Result<Standing, AllocError>
    requires { length stands.now ≡ length procs.now.processes }
    ensures { IfOk result (λ standing.
        standing.all.items ≡ stand_items procs.now.processes stands.now) }
{
    let mut all = Vec::new(alloc);
    for p in 0..procs.len() {
        let stand = stand_at(alloc, procs, stands, p)?;
        all.push(stand)?;
    }
    Ok(Standing { all })
}

// The first of these groups, at most `most`, with the largest first.
fn first_groups(mut groups: Vec<TextGroup>, most: u64) -> Result<Vec<TextGroup>, AllocError>
    ensures { IfOk result (λ first. first.items ≡ first_groups most groups.items) }
{
    sort_most_first(&mut groups)?;
    groups.truncate(most as usize);
    Ok(groups)
}

// The groups that have more than one process.
fn several(alloc: Global, groups: &[TextGroup]) -> Result<Vec<TextGroup>, AllocError>
    ensures { IfOk result (λ several. several.items ≡ filter is_several groups.now) }
{
    let mut several = Vec::new(alloc);
    for group in groups {
        if group.count > 1 {
            several.push(*group)?;
        }
    }
    Ok(several)
}

// The largest groups of processes that stand at the same place and were spawned as the same, at most `most`.
pub(crate) fn largest_groups(
    alloc: Global,
    procs: &Procs,
    stands: &Stands,
    most: u64,
) -> Result<Vec<TextGroup>, AllocError>
    requires { length stands.now ≡ length procs.now.processes }
    ensures { IfOk result (λ groups.
        groups.items ≡ largest_groups most procs.now.processes stands.now) }
{
    let standing = find_stands(alloc, procs, stands)?;
    let groups = group_texts(alloc, &standing)?;
    first_groups(several(alloc, &groups)?, most)
}

// The ports, which are grouped by the line that says what they are.
#[derive(Drop)]
struct Uses<'a> {
    ports: &'a Rows,
}

impl<'a> Model for Uses<'a> {
    ghost use Rattle.std.specs.Prelude.{◌≡◌, List};
    ghost use Rattle.section_rows.specs.Rows.{Row};

    ghost Value = { List Row };

    ghost view = { λ uses. uses.ports.now.rows };

    ghost invariant = { λ uses. uses.ports.now.width ≡ 2 };
}

impl<'a> Grouped for Uses<'a> {
    ghost use Rattle.std.specs.Prelude.{map};
    ghost use Rattle.dump_triage.specs.Triage.{port_item};

    ghost items = { λ uses. map port_item uses };

    fn len(&self) -> usize {
        self.ports.len()
    }

    fn text(&self, i: usize) -> &[u8] {
        match self.ports.cell(i, 1) {
            Some(line) => cut_text(line),
            None => &[],
        }
    }

    fn weight(&self, _i: usize) -> u64 {
        0
    }
}

// The groups of ports that have a line that says what they are.
fn used(alloc: Global, ports: &Rows, groups: &[TextGroup]) -> Result<Vec<TextGroup>, AllocError>
    requires width { ports.now.width ≡ 2 }
    requires within { All (λ group. group.first < length ports.now.rows) groups.now }
    ensures { IfOk result (λ used. used.items ≡ filter (has_use ports.now.rows) groups.now) }
{
    let mut used = Vec::new(alloc);
    for group in groups {
        if ports.cell(group.first, 1).is_some() {
            used.push(*group)?;
        }
    }
    Ok(used)
}

// The largest groups of ports that are the same, at most `most`.
pub(crate) fn largest_ports(
    alloc: Global,
    ports: &Rows,
    most: u64,
) -> Result<Vec<TextGroup>, AllocError>
    requires { ports.now.width ≡ 2 }
    ensures { IfOk result (λ groups. groups.items ≡ largest_ports most ports.now.rows) }
{
    let uses = Uses { ports };
    let groups = group_texts(alloc, &uses)?;
    first_groups(used(alloc, ports, &groups)?, most)
}
