// Everything in the window: a closed rectangle, the lines that meet it, and their slots listed. A scan of the live lines:
// the check of the whole map comes before it and costs far more.
#![tactic(auto)]

ghost use Rattle.std.specs.Prelude.{◌≡◌, true, ◌*◌, ◌≤◌, length};
ghost use Rattle.algebra.specs.Words.{every};
ghost use Rattle.definitions.specs.Shape.{meets_area};
ghost use Rattle.definitions.specs.Tables.{slots_of, slot_sound};
ghost use Rattle.definitions.specs.Window.{window_fits, area_in, slots_in, listed_in};
ghost use Rattle.geometry.specs.Means.{line_of};
ghost use Rattle.geometry.specs.Range.{LineEnds};
ghost use Rattle.tables.specs.Gathered.{Front};
ghost use Rattle.tables.specs.Lent.{Windows};
ghost use Rattle.tables.specs.Rows.{entries_of};
ghost use Rattle.window.specs.Means.{area_by, overlap_of, one_side_of, seen_at};

mod area;

pub use area::Area;
use definitions::{Answer, Grid, Half, Point, Refusal, Window};
use geometry::{Line, both_one_side, on_grid, to_half, turn};
use tables::{Row, copy, gather, is_live, line_of_row};

// The stretch from a to b, in either order, and that from low to high have a number in common.
fn overlap(low: Half, high: Half, a: Half, b: Half) -> bool
    ensures { result ≡ overlap_of low.0 high.0 a.0 b.0 }
{
    ((a.0 <= high.0) | (b.0 <= high.0)) & ((low.0 <= a.0) | (low.0 <= b.0))
}

// All four turns above 0, or all below.
fn one_side(a: i32, b: i32, c: i32, d: i32) -> bool
    ensures { result ≡ one_side_of a b c d }
{
    both_one_side(a, b) & both_one_side(b, c) & both_one_side(c, d)
}

// The boxes first: they tell most lines apart, and need no product.
pub fn meets_area(k: Area, l: Line) -> bool
    requires { LineEnds (line_of l) }
    ensures { result ≡ meets_area (area_by k) (line_of l) }
{
    let Area {
        west,
        south,
        east,
        north,
    } = k;
    if !overlap(west, east, l.a.x, l.b.x) {
        return false;
    }
    if !overlap(south, north, l.a.y, l.b.y) {
        return false;
    }
    let a = turn(l.a, l.b, Point { x: west, y: south });
    let b = turn(l.a, l.b, Point { x: east, y: south });
    let c = turn(l.a, l.b, Point { x: west, y: north });
    let d = turn(l.a, l.b, Point { x: east, y: north });
    !one_side(a, b, c, d)
}

pub fn window_fits(w: Window) -> bool
    ensures { result ≡ window_fits w }
{
    on_grid(w.west)
        & on_grid(w.south)
        & on_grid(w.east)
        & on_grid(w.north)
        & (w.west <= w.east)
        & (w.south <= w.north)
}

// The rectangle in half-steps.
fn area_in(w: Window) -> Area
    requires { window_fits w ≡ true }
    ensures { area_by result ≡ area_in w }
{
    // stays: side by side, since a side that is off the grid has no place in half-steps.
    Area {
        west: to_half(Grid(w.west)),
        south: to_half(Grid(w.south)),
        east: to_half(Grid(w.east)),
        north: to_half(Grid(w.north)),
    }
}

// The row is live, and its line meets the rectangle.
// stays: beside tables::hinders. One function over the test of the line would be longer than the two.
fn seen(row: Row, k: Area) -> bool
    requires { slot_sound (entries_of row) 0 ≡ true }
    ensures { result ≡ seen_at (entries_of row) (area_by k) 0 }
{
    is_live(row) && meets_area(k, line_of_row(row))
}

// The live slots whose line meets the rectangle, rising, at the front of `to`, and how many.
// stays: the count beside `to`, as in `tables::gather`.
fn seen_slots(lines: &[u16], to: &mut [u16], k: Area) -> usize
    requires { (every (slot_sound lines.now) (slots_of lines.now) ≡ true) × (length lines.now ≤ 8192) × (length lines.now ≤ 8 * length to.old) }
    ensures { Front (slots_in lines.now (area_by k)) to.old to.new result }
{
    gather(lines, to, |row| seen(row, k))
}

// The slots gathered in scratch, so that a list too short is left as it is.
pub fn list_window(lines: &[u16], w: Window, slots: &mut [u16]) -> Answer
    requires { (every (slot_sound lines.now) (slots_of lines.now) ≡ true) × (length lines.now ≤ 8192) × (window_fits w ≡ true) }
    ensures { Windows result slots.new (listed_in (slots_in lines.now (area_in w)) slots.old) }
{
    // stays: the count beside the buffer, which the list's length is set against and which is what the call answers.
    let mut found = [0u16; 1024];
    let n = seen_slots(lines, &mut found, area_in(w));
    if slots.len() < n {
        return Err(Refusal::ListShort);
    }
    copy(&found[..n], slots);
    // stays: `as`, since a count of slots fits.
    Ok(n as u32)
}
