// The inner steps of insert and delete: a map that has passed the tests is changed, and is sound again.
#![tactic(auto)]

ghost use Rattle.std.specs.Prelude.{◌≡◌};
ghost use Rattle.definitions.specs.Tree.{base_rule};
ghost use Rattle.definitions.specs.Calls.{with_slot, rebuilt, freed, insert_of};
ghost use Rattle.tables.specs.Rows.{entries_of};
ghost use Rattle.tables.specs.Lent.{tables, Replies, Passed};
ghost use Rattle.changes.specs.Changing.{Room, Putting, Put, Placing, Taking};

use definitions::{Answer, Given, Refusal};
use kinds::conflict_detail;
use tables::{
    Row, all_on_grid, clear, copy, emptied, first_conflict, free_slot, handle_of, no_length,
    put_row, row_at, row_of,
};
use tree::build;

// stays: three slices, here and below. Of a struct of three `&mut` each function would have to promise, for each field, that the borrow it leaves is the one it was lent.
// The tables with a slot's row put in place, if there is room for the tree; else they are as they were.
fn put_line(
    lines: &mut [u16],
    nodes: &mut [u16],
    listings: &mut [u16],
    slot: usize,
    row: Row,
    built: &mut [u16],
    named: &mut [u16],
) -> bool
    requires { Putting lines.old nodes.old listings.old slot row built.old named.old }
    ensures { Put base_rule (tables lines.old nodes.old listings.old) (with_slot lines.old slot (entries_of row))
        (tables lines.new nodes.new listings.new) result }
{
    let before = row_at(lines, slot);
    put_row(lines, slot, row);
    if build(lines, built, named).is_none() {
        put_row(lines, slot, before);
        return false;
    }
    copy(built, nodes);
    copy(named, listings);
    true
}

// stays: beside soundness::trees_sound, whose two arrays are cut alike. One asks `Room` and writes what is lent, the other asks `Slotted` and only reads.
fn put_if_room(
    lines: &mut [u16],
    nodes: &mut [u16],
    listings: &mut [u16],
    slot: usize,
    row: Row,
) -> bool
    requires { Room lines.old nodes.old listings.old slot row }
    ensures { Put base_rule (tables lines.old nodes.old listings.old) (with_slot lines.old slot (entries_of row))
        (tables lines.new nodes.new listings.new) result }
{
    // stays: two arrays, since there is no heap.
    let mut built = [0u16; 16384];
    let mut named = [0u16; 16384];
    let n = nodes.len();
    let m = listings.len();
    put_line(
        lines,
        nodes,
        listings,
        slot,
        row,
        &mut built[..n],
        &mut named[..m],
    )
}

// The line into its slot, its generation raised by 1.
fn place(
    lines: &mut [u16],
    nodes: &mut [u16],
    listings: &mut [u16],
    slot: usize,
    g: Given,
) -> Answer
    requires { Placing base_rule lines.old nodes.old listings.old slot g }
    ensures { Replies result lines.new nodes.new listings.new (insert_of base_rule (tables lines.old nodes.old listings.old) g) }
{
    let row = row_at(lines, slot);
    let generation = row.generation + 1;
    if put_if_room(lines, nodes, listings, slot, row_of(g, generation)) {
        return Ok(handle_of(slot, generation));
    }
    Err(Refusal::NoRoom)
}

// Insert into a sound map.
pub fn insert_sound(lines: &mut [u16], nodes: &mut [u16], listings: &mut [u16], g: Given) -> Answer
    requires { Passed base_rule lines.old nodes.old listings.old }
    ensures { Replies result lines.new nodes.new listings.new (insert_of base_rule (tables lines.old nodes.old listings.old) g) }
{
    if !all_on_grid(g) {
        return Err(Refusal::OffGrid);
    }
    if no_length(g) {
        return Err(Refusal::NoLength);
    }
    if let Some(s) = first_conflict(lines, g) {
        return Err(Refusal::Conflict(conflict_detail(lines, s, g)));
    }
    let Some(slot) = free_slot(lines) else {
        return Err(Refusal::NoSlot);
    };
    place(lines, nodes, listings, slot, g)
}

// The tables with a slot emptied: the tree of what remains never needs more room.
pub fn take_line(lines: &mut [u16], nodes: &mut [u16], listings: &mut [u16], slot: usize)
    requires { Taking base_rule lines.old nodes.old listings.old slot }
    ensures { tables lines.new nodes.new listings.new ≡ rebuilt base_rule (tables lines.old nodes.old listings.old) (freed lines.old slot) }
{
    let row = row_at(lines, slot);
    put_row(lines, slot, emptied(row));
    clear(nodes);
    clear(listings);
    build(lines, nodes, listings);
}
