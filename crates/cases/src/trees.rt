// Small trees worked out by hand. Numbers in the comments are half-steps: grid number g stands at 2g + 1, and the map's
// middle is at 16,384.
use std::io;
use steps::case::Case;

// From (8001,8001) north into NW and east into SE: C1 divides the map, and each son has one end, of all its lines.
fn two_at_a_vertex(case: &mut Case<impl Print + Drop>) -> io::Result<()> {
    case.add([4000, 4000, 4000, 12000])?;
    case.add([4000, 4000, 12000, 4000])
}

fn vertex(rt: &impl Print) -> io::Result<()> {
    let mut case = Case::small(rt, b"two lines at a vertex")?;
    two_at_a_vertex(&mut case)?;
    case.tree(5, 4)?;
    case.end()
}

// The third runs through the middle, so it touches NW and SE, whose ends are not its own: C2' divides both once more.
// The sons that touch the middle list it, those with the ends list the first two.
fn through_a_corner(rt: &impl Print) -> io::Result<()> {
    let mut case = Case::lent(rt, b"a third through a corner, just room", 32, 13, 8)?;
    two_at_a_vertex(&mut case)?;
    case.add([4000, 4000, 12000, 12000])?;
    case.tree(13, 8)?;
    case.end()
}

// That tree has 13 nodes and 8 listings: with one less of either it is refused, and the tree of two lines stays.
fn no_room(rt: &impl Print, name: &[u8], nodes: usize, listings: usize) -> io::Result<()> {
    let mut case = Case::lent(rt, name, 32, nodes, listings)?;
    two_at_a_vertex(&mut case)?;
    case.add([4000, 4000, 12000, 12000])?;
    case.tree(5, 4)?;
    case.end()
}

// Document 004: insertion and then deletion leaves the data unchanged; here only the slot keeps its generation.
fn restored(rt: &impl Print) -> io::Result<()> {
    let mut case = Case::small(rt, b"insert and delete restore")?;
    two_at_a_vertex(&mut case)?;
    case.add([4000, 4000, 12000, 12000])?;
    case.remove(131073)?;
    case.tree(5, 4)?;
    case.part(&case.lines.entries, 16..24)?;
    case.end()
}

// Level lines at 16,383 and 16,385: neither reaches the side between them at 16,384, so each meets two sons only.
// The part shown starts at the leaf's own listing.
fn beside_the_middle(rt: &impl Print) -> io::Result<()> {
    let mut case = Case::small(rt, b"both sides of the middle")?;
    case.add([0, 8191, 16383, 8191])?;
    case.add([0, 8192, 16383, 8192])?;
    case.tree(5, 4)?;
    case.show(0, 0)?;
    case.show(16383, 16383)?;
    case.end()
}

// East, north and to the far corner: SW has their common end and lists all three; the last touches NW and SE at the
// middle, which divides both; the first two run on through two sons each.
fn fan(rt: &impl Print) -> io::Result<()> {
    let mut case = Case::small(rt, b"a fan from the corner")?;
    case.add([0, 0, 16383, 0])?;
    case.add([0, 0, 0, 16383])?;
    case.add([0, 0, 16383, 16383])?;
    case.tree(13, 10)?;
    case.end()
}

// One corner in each quarter, with two lines at it.
fn square(rt: &impl Print) -> io::Result<()> {
    let mut case = Case::small(rt, b"a square")?;
    case.labelled([4000, 4000, 12000, 4000], 1, 0)?;
    case.labelled([12000, 4000, 12000, 12000], 1, 0)?;
    case.labelled([12000, 12000, 4000, 12000], 1, 5)?;
    case.labelled([4000, 12000, 4000, 4000], 1, 0)?;
    case.tree(5, 8)?;
    case.end()?;
    about_the_square(&case)
}

// Inside: the south line's left. South of it: none. North of it, from the west end on: the north line's right, as it
// was drawn westward; at its east end no line counts. Then a corner, two upright sides, and a corner of slots 1 and 2.
fn about_the_square(case: &Case<impl Print + Drop>) -> io::Result<()> {
    case.begin(b"points about the square")?;
    let points = [
        8000, 8000, 8000, 100, 8000, 13000, 4000, 12001, 12000, 12001, 4000, 4000, 12000, 8000,
        4000, 8000, 12000, 12000,
    ];
    case.look(&points, &mut [0; 9])?;
    case.end()
}

// The second line runs through (12,12), a corner of the smallest block that has the first one's end (11,11): C2' fails
// there, and it lists both. The blocks of side 4 about the corner have the second alone.
fn smallest_with_an_end(rt: &impl Print) -> io::Result<()> {
    let mut case = Case::small(rt, b"an end in a smallest block")?;
    case.add([0, 5, 5, 5])?;
    case.add([5, 6, 6, 5])?;
    case.show(5, 5)?;
    case.show(6, 6)?;
    case.show(5, 6)?;
    case.end()
}

// The first is in the block from (3,2) to (4,2.5), the second, beside it, from (2,3.5) to (3,4): C3 fails.
fn smallest_with_no_end(rt: &impl Print) -> io::Result<()> {
    let mut case = Case::small(rt, b"two lines in a smallest block")?;
    case.add([0, 0, 2, 1])?;
    case.add([0, 1, 2, 2])?;
    case.show(1, 1)?;
    case.end()
}

// Document 000 on C3: two lines meet at a vertex just past a side. West of the side no end is near, and they part so
// little that only the smallest block stops the division; the quarter with the vertex is simple.
fn vertex_past_a_side(rt: &impl Print) -> io::Result<()> {
    let mut case = Case::lent(rt, b"a vertex beside the middle", 32, 16384, 16384)?;
    case.add([0, 3000, 8192, 4000])?;
    case.add([0, 5000, 8192, 4000])?;
    case.show(8191, 4000)?;
    case.show(8192, 4000)?;
    case.end()
}

// The four quarters, two of them listing it for the touched corner; the last two points stand beside the middle.
fn diagonal(rt: &impl Print) -> io::Result<()> {
    let mut case = Case::small(rt, b"leaves of the diagonal")?;
    case.add([0, 0, 16383, 16383])?;
    case.show(0, 16383)?;
    case.show(16383, 0)?;
    case.show(8191, 8191)?;
    case.show(8192, 8192)?;
    case.end()
}

// Done, with a leaf that lists nothing: unlike a refusal it has a side.
fn empty_leaf(rt: &impl Print) -> io::Result<()> {
    let mut case = Case::small(rt, b"an empty leaf")?;
    case.add([0, 0, 16383, 0])?;
    case.show(0, 16383)?;
    case.end()
}

pub fn all(rt: &impl Print) -> io::Result<()> {
    vertex(rt)?;
    through_a_corner(rt)?;
    no_room(rt, b"one node short", 12, 8)?;
    no_room(rt, b"one listing short", 13, 7)?;
    restored(rt)?;
    beside_the_middle(rt)?;
    fan(rt)?;
    square(rt)?;
    smallest_with_an_end(rt)?;
    smallest_with_no_end(rt)?;
    vertex_past_a_side(rt)?;
    diagonal(rt)?;
    empty_leaf(rt)
}
