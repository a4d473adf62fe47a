// The path from the whole map to the leaf that holds a point, and the blocks that lie beside it, over the same x.
#![tactic(auto)]

ghost use Rattle.std.specs.Prelude.{◌≡◌, ◌+◌, ◌≤◌, ◌<◌, length};
ghost use Rattle.geometry.specs.Means.{block_of};
ghost use Rattle.path.specs.Asked.{StripOver, SonEntry, SonIs, Entered, GoneIn, PathAsked, OwnIs, went_up, TurnedOff, TurnsOff, Beside};

use definitions::{Half, Point};
use geometry::{Block, north_east, north_west, south_east, south_west, whole_map};
use tables::DIVIDED;

// The half of a block that lies over a point: 0 for the west half, 1 for the east, and its two sons.
// stays: a number, since it is added to the place of the upper son's entry.
#[derive(Clone, Copy)]
pub struct Strip {
    pub which: usize,
    pub above: Block,
    pub below: Block,
}

// What the path keeps of a block gone into: the entry of its upper son over the point, and that son's block; the lower son's are told
// from them.
#[derive(Clone, Copy)]
pub struct Fork {
    pub entry: u16,
    pub above: Block,
}

// In the places of a path that are not taken, and in its law past its end.
pub const NO_FORK: Fork = Fork {
    entry: 0,
    above: Block {
        west: Half(0),
        south: Half(0),
        side: 0,
    },
};

// A block over the point, with its node. So many places of a table are taken: of the path, by the blocks gone into before it;
// of the table of blocks put by, by those that come after it.
#[derive(Clone, Copy)]
pub struct Spot {
    pub node: usize,
    pub block: Block,
    pub by: usize,
}

pub fn strip_of(p: Point, k: Block) -> Strip
    requires { (k.west.0 + k.side < 65536) × (k.south.0 + k.side < 65536) }
    ensures { StripOver p (block_of k) result.which (block_of result.above) (block_of result.below) }
{
    if p.x.0 < k.west.0 + k.side / 2 {
        return Strip {
            which: 0,
            above: north_west(k),
            below: south_west(k),
        };
    }
    Strip {
        which: 1,
        above: north_east(k),
        below: south_east(k),
    }
}

// The lower son's place among the four entries of the index is 2 after that of the upper.
// stays: a Bool for the upper son, as `SonEntry` and `SonIs` have it.
pub fn entry_of(entry: usize, upper: bool) -> usize
    requires { entry < 65536 }
    ensures { SonEntry entry upper result }
{
    if upper { entry } else { entry + 2 }
}

pub fn son_of(two: Strip, upper: bool) -> Block
    ensures { SonIs (block_of two.above) (block_of two.below) upper (block_of result) }
{
    if upper { two.above } else { two.below }
}

// Into a divided block, to the son that holds p.
// stays: beside column::go_on, which puts another block by and goes to the son that is first on a way.
fn go_in(index: &[u16], path: &mut [Fork], p: Point, at: Spot) -> Spot
    requires { Entered index.now (length path.old) at }
    ensures { GoneIn index.now p at path.old path.new result }
{
    let two = strip_of(p, at.block);
    let above = two.above;
    let entry = 4 * at.node + two.which;
    path[at.by] = Fork {
        // stays: `as`, since an entry fits.
        entry: entry as u16,
        above,
    };
    let upper = above.south.0 < p.y.0;
    let son = entry_of(entry, upper);
    Spot {
        node: usize::from(index[son]),
        block: son_of(two, upper),
        by: at.by + 1,
    }
}

// To the leaf that holds p.
pub fn own_leaf(nodes: &[u16], index: &[u16], path: &mut [Fork], p: Point) -> Spot
    requires { PathAsked nodes.now index.now path.old p }
    ensures { OwnIs nodes.now index.now path.new p result }
{
    let mut at = Spot {
        node: 0,
        block: whole_map(),
        by: 0,
    };
    let mut node = at.node;
    while nodes[node] == DIVIDED {
        at = go_in(index, path, p, at);
        node = at.node;
    }
    at
}

// At this level the path went to the upper son.
fn went_up(path: &[Fork], p: Point, level: usize) -> bool
    requires { level < length path.now }
    ensures { result ≡ went_up path.now p level }
{
    path[level].above.south.0 < p.y.0
}

// From so many levels up the path, the first at which a son lies beside it on the way.
// stays: a `for`. Tried with `find`: that no level above the one found turns off (`passed` of `TurnedOff`) did not close.
pub fn turn_off(path: &[Fork], p: Point, from: usize, south: bool) -> Option<usize>
    requires { from ≤ length path.now }
    ensures { TurnedOff path.now p south from result }
{
    for level in (0..from).rev() {
        if went_up(path, p, level) == south {
            return Some(level);
        }
    }
    None
}

// The son beside the path at this level: the lower on the way south, the upper on the way north. The fork is read where it stands: a copy
// is one number, taken apart by shifts.
pub fn beside(index: &[u16], path: &[Fork], level: usize, south: bool) -> Spot
    requires { TurnsOff index.now path.now level }
    ensures { Beside index.now path.now level south result }
{
    let fork = &path[level];
    let son = entry_of(usize::from(fork.entry), !south);
    let upper = fork.above;
    let seam = upper.south.0;
    let foot = if south { seam - upper.side } else { seam };
    Spot {
        node: usize::from(index[son]),
        block: Block {
            south: Half(foot),
            ..upper
        },
        by: 0,
    }
}
