// The lent tables: their lengths, rows of the line table, comparing, copying and clearing.
#![tactic(auto)]

ghost use Rattle.std.specs.Prelude.{◌≡◌, ℕ, Bool, true, false, ◌+◌, ◌*◌, ◌/◌, ◌%◌, ◌≤◌, eqb, length, replicate};
ghost use Rattle.algebra.specs.Words.{every, those, same_list, over};
ghost use Rattle.definitions.specs.Shape.{grid_point, same_point};
ghost use Rattle.definitions.specs.Tables.{lengths_fit, slots_of, live_slots, live_sound, empty_sound, slot_sound};
ghost use Rattle.definitions.specs.Lookup.{upper_label, lower_label};
ghost use Rattle.definitions.specs.Calls.{with_slot, all_on_grid, no_length, conflicting, free_slots};
ghost use Rattle.definitions.specs.Calls.{known as known_in};
ghost use Rattle.geometry.specs.Means.{line_of};
ghost use Rattle.geometry.specs.Range.{LineEnds};
ghost use Rattle.tables.specs.Rows.{Asked, Tells, row_at, entries_of, row_of, emptied_row, is_free, OnMap, IsLine};
ghost use Rattle.tables.specs.Gathered.{Front};
ghost use Rattle.tables.specs.Slots.{first_slot_of};
ghost use Rattle.tables.specs.Sound.{hinders_at, Tested};

use definitions::Given;
use geometry::{Line, conflict, line_of, on_grid};

// The entry of a divided block in the node table; a leaf's is the number of its listings.
pub const DIVIDED: u16 = 65535;

// The next free places of the node table and the listing table.
#[derive(Clone, Copy)]
pub struct Place {
    pub node: usize,
    pub listing: usize,
}

// The three lent tables, to be read.
#[derive(Clone, Copy)]
pub struct Lent<'a> {
    pub lines: &'a [u16],
    pub nodes: &'a [u16],
    pub listings: &'a [u16],
}

pub fn lengths_fit(lines: &[u16], nodes: &[u16], listings: &[u16]) -> bool
    ensures { result ≡ lengths_fit (record { lines = lines.entry.now; nodes = nodes.now; listings = listings.now }) }
{
    let n = lines.len();
    let m = nodes.len();
    (n % 8 == 0) & (8 <= n) & (n <= 8192) & (1 <= m) & (m <= 16384) & (listings.len() <= 16384)
}

// The 8 entries of a slot.
#[derive(Clone, Copy, Default)]
pub struct Row {
    pub live: u16,
    pub generation: u16,
    pub x1: u16,
    pub y1: u16,
    pub x2: u16,
    pub y2: u16,
    pub left: u16,
    pub right: u16,
}

pub fn row_at(lines: &[u16], slot: usize) -> Row
    requires { 8 * slot + 8 ≤ length lines.now }
    ensures { result ≡ row_at lines.now slot }
{
    let i = 8 * slot;
    let e = i + 8;
    // stays: entry by entry, as `row_at` of the definitions reads them.
    let r = &lines[i..e];
    Row {
        live: r[0],
        generation: r[1],
        x1: r[2],
        y1: r[3],
        x2: r[4],
        y2: r[5],
        left: r[6],
        right: r[7],
    }
}

pub fn put_row(lines: &mut [u16], slot: usize, row: Row)
    requires { 8 * slot + 8 ≤ length lines.old }
    ensures { lines.new ≡ with_slot lines.old slot (entries_of row) }
{
    let i = 8 * slot;
    let e = i + 8;
    let Row {
        live,
        generation,
        x1,
        y1,
        x2,
        y2,
        left,
        right,
    } = row;
    lines[i..e].copy_from_slice(&[live, generation, x1, y1, x2, y2, left, right]);
}

// The row of a line that insert is given.
// stays: no From, since a row is made of two things.
pub fn row_of(g: Given, generation: u16) -> Row
    ensures { result ≡ row_of g generation }
{
    Row {
        live: 1,
        generation,
        x1: g.x1,
        y1: g.y1,
        x2: g.x2,
        y2: g.y2,
        left: g.left,
        right: g.right,
    }
}

// The row of a slot that is live no more: it keeps its generation.
pub fn emptied(row: Row) -> Row
    ensures { result ≡ emptied_row row }
{
    Row {
        generation: row.generation,
        ..Row::default()
    }
}

pub fn is_live(row: Row) -> bool
    ensures { result ≡ eqb row.live 1 }
{
    row.live == 1
}

// The label above the line.
// stays: a function each for the two labels, as each states a definition of its own and has an edit of its own.
pub fn upper_label(row: Row) -> u16
    ensures { result ≡ upper_label (entries_of row) 0 }
{
    if row.x1 < row.x2 { row.left } else { row.right }
}

// The label below the line.
pub fn lower_label(row: Row) -> u16
    ensures { result ≡ lower_label (entries_of row) 0 }
{
    if row.x2 <= row.x1 {
        row.left
    } else {
        row.right
    }
}

// stays: entry by entry, here and below, as the definitions of these names read them; an edit leaves one entry out.
pub fn live_sound(row: Row) -> bool
    ensures { result ≡ live_sound (entries_of row) 0 }
{
    (1 <= row.generation)
        & on_grid(row.x1)
        & on_grid(row.y1)
        & on_grid(row.x2)
        & on_grid(row.y2)
        & !((row.x1 == row.x2) & (row.y1 == row.y2))
}

pub fn empty_sound(row: Row) -> bool
    ensures { result ≡ empty_sound (entries_of row) 0 }
{
    (row.live == 0)
        & (row.x1 == 0)
        & (row.y1 == 0)
        & (row.x2 == 0)
        & (row.y2 == 0)
        & (row.left == 0)
        & (row.right == 0)
}

pub fn slot_sound(row: Row) -> bool
    ensures { result ≡ slot_sound (entries_of row) 0 }
{
    if is_live(row) {
        live_sound(row)
    } else {
        empty_sound(row)
    }
}

// stays: no From, which can ask for nothing: a row may hold what is off the grid.
pub fn line_of_row(row: Row) -> Line
    requires { (row.x1 ≤ 16383) × (row.y1 ≤ 16383) × (row.x2 ≤ 16383) × (row.y2 ≤ 16383) }
    ensures { (result.a ≡ grid_point row.x1 row.y1) × (result.b ≡ grid_point row.x2 row.y2) }
{
    line_of(row.x1, row.y1, row.x2, row.y2)
}

// stays: `OnMap` is asked, here and in other crates, and is no type: a table and a slot are whatever is lent.
pub fn line_at(lines: &[u16], slot: u16) -> Line
    requires { OnMap lines.now slot }
    ensures { IsLine lines.now slot result }
{
    line_of_row(row_at(lines, usize::from(slot)))
}

// A handle is the slot x 65,536 + the generation.
// stays: a number, which C keeps and hands back, taken apart by two functions and made by one; `as`, since each part fits.
pub fn slot_of(handle: u32) -> usize
    ensures { result ≡ handle / 65536 }
{
    (handle / 65536) as usize
}

pub fn generation_of(handle: u32) -> u16
    ensures { result ≡ handle % 65536 }
{
    (handle % 65536) as u16
}

pub fn handle_of(slot: usize, generation: u16) -> u32
    requires { slot ≤ 65535 }
    ensures { result ≡ slot * 65536 + generation }
{
    (slot as u32) * 65536 + u32::from(generation)
}

// The handle is that of a live line.
pub fn known(lines: &[u16], handle: u32) -> bool
    ensures { result ≡ known_in lines.now handle }
{
    let slot = slot_of(handle);
    if lines.len() / 8 <= slot {
        return false;
    }
    let row = row_at(lines, slot);
    is_live(row) & (row.generation == generation_of(handle))
}

// stays: over the numbers of the slots, by which `slots_of` and every law of them speak, and not over chunks of the table.
pub fn slots_sound(lines: &[u16]) -> bool
    ensures { result ≡ every (slot_sound lines.now) (slots_of lines.now) }
{
    (0..lines.len() / 8).all(|s| slot_sound(row_at(lines, s)))
}

// The slots whose row passes the test, rising, at the front of `to`, and how many.
// stays: the length is asked, here and in its callers, and is no type: a line table may have any.
pub fn gather<F: Fn(Row) -> bool>(lines: &[u16], to: &mut [u16], test: F) -> usize
    requires room { (length lines.now ≤ 8192) × (length lines.now ≤ 8 * length to.old) }
    requires asked { Asked (F.pre test) lines.now }
    ensures { (p : ℕ → Bool) → Tells (F.post test) lines.now p → Front (those p (slots_of lines.now)) to.old to.new result }
{
    let mut count = 0;
    for s in 0..lines.len() / 8 {
        if test(row_at(lines, s)) {
            // stays: `as`, since a slot fits; and the count beside `to`, whose front and rest `Front` speaks of.
            to[count] = s as u16;
            count += 1;
        }
    }
    count
}

// The live slots, rising, at the front of `to`, and how many.
// stays: the count beside `to`, as in `gather`.
pub fn live_slots(lines: &[u16], to: &mut [u16]) -> usize
    requires { (length lines.now ≤ 8192) × (length lines.now ≤ 8 * length to.old) }
    ensures { Front (live_slots lines.now) to.old to.new result }
{
    gather(lines, to, is_live)
}

// The lowest slot whose row passes the test.
// stays: a `for`. Tried with `find`: that the closure around the test may be called (`find-requires`) did not close.
fn first_slot<F: Fn(Row) -> bool>(lines: &[u16], test: F) -> Option<usize>
    requires { Asked (F.pre test) lines.now }
    ensures { (p : ℕ → Bool) → Tells (F.post test) lines.now p → result ≡ first_slot_of (those p (slots_of lines.now)) }
{
    for s in 0..lines.len() / 8 {
        if test(row_at(lines, s)) {
            return Some(s);
        }
    }
    None
}

// Neither live nor retired.
pub fn is_free(row: Row) -> bool
    ensures { result ≡ is_free (entries_of row) 0 }
{
    !is_live(row) & (row.generation < 65535)
}

// The lowest slot that insert may take.
pub fn free_slot(lines: &[u16]) -> Option<usize>
    ensures { result ≡ first_slot_of (free_slots lines.now) }
{
    first_slot(lines, is_free)
}

// stays: beside live_sound. This and the next are definitions of their own, of what insert is given.
pub fn all_on_grid(g: Given) -> bool
    ensures { result ≡ all_on_grid g }
{
    on_grid(g.x1) & on_grid(g.y1) & on_grid(g.x2) & on_grid(g.y2)
}

pub fn no_length(g: Given) -> bool
    ensures { result ≡ no_length g }
{
    (g.x1 == g.x2) & (g.y1 == g.y2)
}

// The row is live, and its line conflicts with l.
pub fn hinders(row: Row, l: Line) -> bool
    requires { (slot_sound (entries_of row) 0 ≡ true) × (same_point l.a l.b ≡ false) × LineEnds (line_of l) }
    ensures { result ≡ hinders_at (entries_of row) (line_of l) 0 }
{
    is_live(row) && conflict(line_of_row(row), l)
}

// The lowest live slot whose line conflicts with the line given.
pub fn first_conflict(lines: &[u16], g: Given) -> Option<usize>
    requires { Tested lines.now g }
    ensures { result ≡ first_slot_of (conflicting lines.now g) }
{
    let l = line_of(g.x1, g.y1, g.x2, g.y2);
    first_slot(lines, |row| hinders(row, l))
}

pub fn same(a: &[u16], b: &[u16]) -> bool
    requires { length a.now ≡ length b.now }
    ensures { result ≡ same_list a.now b.now }
{
    a == b
}

// All of `from` at the front of `to`.
pub fn copy(from: &[u16], to: &mut [u16])
    requires { length from.now ≤ length to.old }
    ensures { to.new ≡ over 0 from.now to.old }
{
    // stays: a loop. With copy_from_slice a check of the hub takes 1.2 percent more instructions, since the lists of leaves are short.
    for (i, entry) in from.iter().enumerate() {
        to[i] = *entry;
    }
}

pub fn clear(table: &mut [u16])
    ensures { table.new ≡ replicate (length table.old) 0 }
{
    table.fill(0);
}
