// The column of leaves over a point, from its own leaf south or north: where a walk of it stands, and what each leaf adds.
#![tactic(auto)]

ghost use Rattle.std.specs.Prelude.{◌≡◌, ◌+◌, ◌<◌, length};
ghost use Rattle.geometry.specs.Means.{block_of};
ghost use Rattle.meaning.specs.Column.{far};
ghost use Rattle.meaning.specs.Walk.{reached};
ghost use Rattle.path.specs.Asked.{Entered};
ghost use Rattle.column.specs.Asked.{GoneOn, Walking, GoneDown, TakenUp, LeafAsked, LeafTold, Settling};

use definitions::{Half, Point};
use geometry::{Block, reaches};
use path::{Spot, entry_of, son_of, strip_of};
use scan::{Scan, scan_slots};
use tables::{DIVIDED, line_at};

// A block put by, with its node.
#[derive(Clone, Copy)]
pub struct Later {
    pub node: u16,
    pub block: Block,
}

// In the places of a table that are not taken, and in its law past its end.
pub const NO_BLOCK: Later = Later {
    node: 0,
    block: Block {
        west: Half(0),
        south: Half(0),
        side: 0,
    },
};

// Into a divided block beyond the point: to the son that comes first on the way, with the other put by.
fn go_on(index: &[u16], later: &mut [Later], p: Point, at: Spot, south: bool) -> Spot
    requires { Entered index.now (length later.old) at }
    ensures { GoneOn index.now p at south later.old later.new result }
{
    let two = strip_of(p, at.block);
    let entry = 4 * at.node + two.which;
    let after = entry_of(entry, !south);
    later[at.by] = Later {
        node: index[after],
        block: son_of(two, !south),
    };
    let son = entry_of(entry, south);
    Spot {
        node: usize::from(index[son]),
        block: son_of(two, south),
        by: at.by + 1,
    }
}

// To the first leaf on the way.
// stays: beside path::own_leaf, a loop of another step; and the slices as parameters, of which each function here takes others.
pub fn go_down(
    nodes: &[u16],
    index: &[u16],
    later: &mut [Later],
    p: Point,
    from: Spot,
    south: bool,
) -> Spot
    requires { Walking nodes.now index.now later.old p from south }
    ensures { GoneDown nodes.now index.now p from south later.old later.new result }
{
    let mut at = from;
    let mut node = at.node;
    while nodes[node] == DIVIDED {
        at = go_on(index, later, p, at, south);
        node = at.node;
    }
    at
}

// The block put by last, read where it stands: a copy is one number, taken apart by shifts.
pub fn take_up(later: &[Later], by: usize) -> Spot
    requires { by < length later.now }
    ensures { TakenUp later.now by result }
{
    let put = &later[by];
    Spot {
        node: usize::from(put.node),
        block: put.block,
        by,
    }
}

// The lines of a leaf, after the best line c of those before. Most leaves on the way have none.
pub fn scan_leaf(
    lines: &[u16],
    nodes: &[u16],
    listings: &[u16],
    index: &[u16],
    p: Point,
    node: usize,
    c: Option<u16>,
    south: bool,
) -> Scan
    requires { LeafAsked lines.now nodes.now listings.now index.now p node c south }
    ensures { LeafTold lines.now nodes.now listings.now index.now p node c south result }
{
    let count = usize::from(nodes[node]);
    if count == 0 {
        return Scan::Best(c);
    }
    let from = usize::from(index[4 * node]);
    scan_slots(lines, &listings[from..from + count], p, c, south)
}

// The side at which the way leaves a block.
fn far_side(k: Block, south: bool) -> Half
    requires { k.south.0 + k.side < 65536 }
    ensures { result.0 ≡ far south (block_of k) }
{
    if south {
        return k.south;
    }
    Half(k.south.0 + k.side)
}

// Once the best line passes within the leaf or before it, nothing further on comes before it.
pub fn settled(lines: &[u16], p: Point, k: Block, best: Option<u16>, south: bool) -> bool
    requires { Settling lines.now p (block_of k) best south }
    ensures { result ≡ reached lines.now south p (far south (block_of k)) best }
{
    match best {
        None => false,
        Some(s) => reaches(line_at(lines, s), p.x, far_side(k, south), south),
    }
}
