// Each refusal by its number, with the tables afterwards, and histories of slots, run on the proved library.
#![tactic(auto)]

use std::io;
use steps::case::Case;

// Most cases start from the line from corner to corner: 5 nodes, 4 listings, all of slot 0.
fn draw(case: &mut Case<impl Print + Drop>) -> io::Result<()> {
    case.labelled([0, 0, 16383, 16383], 7, 9)
}

fn diagonal<R: Print + Drop>(rt: R, name: &[u8]) -> io::Result<Case<R>> {
    let mut case = Case::small(rt, name)?;
    draw(&mut case)?;
    Ok(case)
}

// Its tables.
fn tables(case: &Case<impl Print + Drop>) -> io::Result<()> {
    case.part(&case.lines.entries, 0..8)?;
    case.tree(5, 4)?;
    case.end()
}

// 31 is no number of slots of 8.
fn torn_slot(rt: &impl Print) -> io::Result<()> {
    let mut case = diagonal(rt, b"1 line table of 31")?;
    case.lines.lent = 31;
    case.add([0, 5, 0, 9])?;
    tables(&case)
}

// Each table but one is of a length that would do.
fn not_started(rt: &impl Print) -> io::Result<()> {
    let lengths: [(&[u8], usize, usize, usize); 5] = [
        (b"1 no slot lent", 0, 200, 200),
        (b"1 no node lent", 32, 0, 200),
        (b"1 16385 nodes", 8, 16385, 4),
        (b"1 16385 listings", 8, 5, 16385),
        (b"1 1025 slots", 8200, 5, 4),
    ];
    for (name, lines, nodes, listings) in lengths {
        let mut case = Case::lent(rt, name, lines, nodes, listings)?;
        case.start()?;
        case.end()?;
    }
    Ok(())
}

// The answer list keeps its 7.
fn odd_points(rt: &impl Print) -> io::Result<()> {
    let case = Case::small(rt, b"1 an odd point list")?;
    case.look(&[5, 5, 5], &mut [7])?;
    case.end()
}

fn not_half(rt: &impl Print) -> io::Result<()> {
    let case = Case::small(rt, b"1 answers not half")?;
    case.look(&[5, 5], &mut [7; 2])?;
    case.end()
}

// Only 0 and 1 are live entries; the damage is left as it is.
fn live_two(rt: &impl Print) -> io::Result<()> {
    let mut case = diagonal(rt, b"2 live entry 2")?;
    case.lines.entries[0] = 2;
    case.add([0, 5, 0, 9])?;
    tables(&case)
}

// Handle 0 would fit slot 0 and generation 0, but no live slot has that.
fn generation_zero(rt: &impl Print) -> io::Result<()> {
    let mut case = diagonal(rt, b"2 generation 0")?;
    case.lines.entries[1] = 0;
    case.remove(0)?;
    tables(&case)
}

// Slot 1 is not live and has 1 as its right label.
fn label_left(rt: &impl Print) -> io::Result<()> {
    let mut case = diagonal(rt, b"2 a label in an empty slot")?;
    case.lines.entries[15] = 1;
    case.show(0, 0)?;
    case.end()
}

// The tree has 4 listings; the fifth must be 0.
fn entry_after(rt: &impl Print) -> io::Result<()> {
    let mut case = diagonal(rt, b"2 an entry after the last used")?;
    case.listings.entries[4] = 1;
    case.look(&[5, 5], &mut [7])?;
    case.end()
}

// The NW leaf with none, as half-open blocks would have it; damage comes before the off-grid coordinate.
fn wrong_count(rt: &impl Print) -> io::Result<()> {
    let mut case = diagonal(rt, b"2 a leaf's count")?;
    case.nodes.entries[1] = 0;
    case.add([16384, 5, 0, 9])?;
    case.end()
}

// Twice the line along the south, with the tree of both: no count is wrong, but they conflict.
fn equal_lines(rt: &impl Print) -> io::Result<()> {
    let mut case = Case::small(rt, b"2 equal lines in the right tree")?;
    case.add([0, 0, 16383, 0])?;
    case.lines.entries[8] = 1;
    case.lines.entries[9] = 1;
    case.lines.entries[12] = 16383;
    case.nodes.entries[3] = 2;
    case.nodes.entries[4] = 2;
    case.listings.entries[1] = 1;
    case.listings.entries[3] = 1;
    case.look(&[5, 5], &mut [7])?;
    case.end()
}

fn off_grid(rt: &impl Print) -> io::Result<()> {
    let mut case = diagonal(rt, b"3 off the grid")?;
    case.add([0, 5, 16384, 9])?;
    tables(&case)?;
    let mut case = diagonal(rt, b"3 before 4")?;
    case.add([16384, 5, 16384, 5])?;
    case.end()?;
    let case = diagonal(rt, b"3 leaf off the grid")?;
    case.show(0, 16384)?;
    case.end()
}

// The point is on the diagonal too, but 4 is tested before 5.
fn no_length(rt: &impl Print) -> io::Result<()> {
    let mut case = diagonal(rt, b"4 no length, before 5")?;
    case.add([5, 5, 5, 5])?;
    tables(&case)
}

// The diagonals share the map's middle, which is no grid point.
fn crossing(rt: &impl Print) -> io::Result<()> {
    let mut case = diagonal(rt, b"5 crossing at a block corner")?;
    case.add([0, 16383, 16383, 0])?;
    tables(&case)
}

fn three_levels<R: Print + Drop>(rt: R, name: &[u8]) -> io::Result<Case<R>> {
    let mut case = Case::small(rt, name)?;
    case.add([0, 1000, 100, 1000])?;
    case.add([0, 2000, 100, 2000])?;
    case.add([0, 3000, 100, 3000])?;
    Ok(case)
}

// Across slots 1 and 2, then across all three from the north.
fn lowest_slot(rt: &impl Print) -> io::Result<()> {
    let mut case = three_levels(rt, b"5 the lowest slot")?;
    case.add([50, 1500, 50, 3500])?;
    case.add([50, 3500, 50, 500])?;
    case.end()
}

// A line, and then another.
fn two_lines(rt: &impl Print, name: &[u8], first: [u16; 4], second: [u16; 4]) -> io::Result<()> {
    let mut case = Case::small(rt, name)?;
    case.add(first)?;
    case.add(second)?;
    case.end()
}

// Overlap: they share an end, and points beside it. Touching: the older end lies within the new line. Crossing: at height 0.5.
fn three_kinds(rt: &impl Print) -> io::Result<()> {
    two_lines(rt, b"5 part of a line", [0, 0, 10, 0], [0, 0, 5, 0])?;
    two_lines(rt, b"5 over an end", [5, 0, 5, 5], [0, 0, 10, 0])?;
    two_lines(
        rt,
        b"5 crossing between grid points",
        [0, 0, 10, 1],
        [5, 0, 5, 1],
    )
}

// Under the first at x = 5 and 6, half a grid step away. In half-steps the first is at height 2 over x = 11, so it
// meets the smallest block about (11,1), and at 2.1 over x = 12, past the one about (13,1).
fn near_miss(rt: &impl Print) -> io::Result<()> {
    let mut case = Case::small(rt, b"a near miss")?;
    case.add([0, 0, 10, 1])?;
    case.add([5, 0, 6, 0])?;
    case.show(5, 0)?;
    case.show(6, 0)?;
    case.end()?;
    two_lines(
        rt,
        b"in one direction, apart",
        [0, 0, 10, 0],
        [11, 0, 20, 0],
    )
}

// Lent one slot, which is live: a line beside the diagonal, and one across it.
fn no_slot(rt: &impl Print) -> io::Result<()> {
    let mut case = Case::lent(rt, b"6 no slot", 8, 200, 200)?;
    draw(&mut case)?;
    case.add([0, 5, 0, 9])?;
    tables(&case)?;
    let mut case = Case::lent(rt, b"5 before 6", 8, 200, 200)?;
    draw(&mut case)?;
    case.add([0, 16383, 16383, 0])?;
    case.end()
}

// Two ends in one quarter need more than 5 nodes.
fn no_room(rt: &impl Print) -> io::Result<()> {
    let mut case = Case::lent(rt, b"7 no room", 32, 5, 4)?;
    draw(&mut case)?;
    case.add([0, 5, 0, 9])?;
    tables(&case)
}

// Slot 4 of four; slot 1, not live; slot 0 at another generation.
fn unknown(rt: &impl Print) -> io::Result<()> {
    let mut case = diagonal(rt, b"8 unknown handle")?;
    for handle in [262145, 65537, 2] {
        case.remove(handle)?;
    }
    tables(&case)
}

// Inverted each way, and a coordinate off the grid, before the list is asked for; damage comes first. The list keeps its 7.
fn bad_window(rt: &impl Print) -> io::Result<()> {
    let case = diagonal(rt, b"9 bad window")?;
    case.view([9, 0, 8, 16383], &mut [7])?;
    case.view([0, 9, 16383, 8], &mut [7])?;
    case.view([0, 0, 16384, 16383], &mut [])?;
    case.view([0, 16384, 16383, 16384], &mut [])?;
    case.end()?;
    let mut case = diagonal(rt, b"2 before 9")?;
    case.nodes.entries[1] = 0;
    case.view([9, 0, 8, 16383], &mut [7])?;
    case.end()
}

// Two lines in the window, and room for one; where one is in it, the list does.
fn short_list(rt: &impl Print) -> io::Result<()> {
    let mut case = diagonal(rt, b"10 list short")?;
    case.add([0, 5, 0, 9])?;
    case.view([0, 0, 16383, 16383], &mut [7])?;
    case.view([0, 6, 3, 9], &mut [7])?;
    case.end()
}

// Slot 0 was freed at the last generation: slot 1 is taken.
fn retired(rt: &impl Print) -> io::Result<()> {
    let mut case = Case::small(rt, b"a retired slot")?;
    case.lines.entries[1] = 65535;
    case.labelled([0, 0, 16383, 0], 3, 4)?;
    case.part(&case.lines.entries, 0..16)?;
    case.tree(5, 2)?;
    case.end()
}

// The lowest free slot at the next generation; its older handle stays unknown.
fn used_again(rt: &impl Print) -> io::Result<()> {
    let mut case = three_levels(rt, b"a slot used again")?;
    case.remove(65537)?;
    case.add([0, 2000, 100, 2000])?;
    case.remove(65537)?;
    case.remove(65538)?;
    case.end()
}

// Generations begin anew after start.
fn started_again(rt: &impl Print) -> io::Result<()> {
    let mut case = diagonal(rt, b"start clears")?;
    case.remove(1)?;
    case.add([0, 0, 16383, 16383])?;
    case.start()?;
    case.cleared()?;
    case.add([0, 0, 16383, 16383])?;
    case.end()
}

fn lengths(rt: &impl Print) -> io::Result<()> {
    torn_slot(rt)?;
    not_started(rt)?;
    odd_points(rt)?;
    not_half(rt)
}

fn damage(rt: &impl Print) -> io::Result<()> {
    live_two(rt)?;
    generation_zero(rt)?;
    label_left(rt)?;
    entry_after(rt)?;
    wrong_count(rt)?;
    equal_lines(rt)
}

fn main(rt: HostRuntime) -> io::Result<()> {
    lengths(&rt)?;
    damage(&rt)?;
    off_grid(&rt)?;
    no_length(&rt)?;
    crossing(&rt)?;
    lowest_slot(&rt)?;
    three_kinds(&rt)?;
    near_miss(&rt)?;
    no_slot(&rt)?;
    no_room(&rt)?;
    unknown(&rt)?;
    bad_window(&rt)?;
    short_list(&rt)?;
    retired(&rt)?;
    used_again(&rt)?;
    started_again(&rt)
}
