// The index of the node table, and the leaf that holds a point.
#![tactic(auto)]

ghost use Rattle.std.specs.Prelude.{◌+◌, ◌*◌, ◌≤◌, ◌<◌, length, slice_index};
ghost use Rattle.definitions.specs.Tree.{Tree};
ghost use Rattle.walk.specs.Index.{Standing, Indexed, Walkable, Divided, Filled, Put, SonOver, Searchable, LeafOver};

use definitions::{Half, Point};
use tables::{DIVIDED, Place};

// A leaf: its block, where its listings start, and how many they are.
#[derive(Clone, Copy)]
pub struct Leaf {
    pub west: Half,
    pub south: Half,
    pub side: u16,
    pub first: usize,
    pub count: usize,
}

// A son of a block: its south-west corner, and which of the four it is, in the order NW, NE, SW, SE.
// stays: a number, since it is the place of the son's node among the four entries of the index.
#[derive(Clone, Copy)]
struct Son {
    west: u16,
    south: u16,
    which: usize,
}

// Four entries of a table, in its place n.
pub fn put_four(table: &mut [u16], n: usize, four: [u16; 4])
    requires { 4 * n + 4 ≤ length table.old }
    ensures { Put n (slice_index four 0) (slice_index four 1) (slice_index four 2) (slice_index four 3) table.old table.new }
{
    let at = 4 * n;
    table[at..at + 4].copy_from_slice(&four);
}

// stays: `Walkable` is asked, here and in showing, and is no type: a node table is whatever is lent.
// The entries of a block and of all blocks in it, and the places after it.
#[cycle(index_block_index_sons)]
fn index_block(nodes: &[u16], index: &mut [u16], at: Place) -> Place
    requires { Walkable nodes.now (length index.old) at.node at.listing }
    ensures { (t : Tree) → Standing nodes.now t at.node at.listing → Filled t at.node at.listing result.node result.listing index.old index.new }
{
    let node = at.node;
    let listing = at.listing;
    let count = nodes[node];
    if count != DIVIDED {
        // stays: `as`, here and below, since every place fits.
        index[4 * node] = listing as u16;
        return Place {
            node: node + 1,
            listing: listing + usize::from(count),
        };
    }
    index_sons(nodes, index, at)
}

// The same for a divided block: its four sons in turn, and then its own entries, which are their nodes.
#[cycle(index_block_index_sons)]
fn index_sons(nodes: &[u16], index: &mut [u16], at: Place) -> Place
    requires { Divided nodes.now (length index.old) at.node at.listing }
    ensures { (t : Tree) → Standing nodes.now t at.node at.listing → Filled t at.node at.listing result.node result.listing index.old index.new }
{
    let nw = Place {
        node: at.node + 1,
        listing: at.listing,
    };
    let ne = index_block(nodes, index, nw);
    let sw = index_block(nodes, index, ne);
    let se = index_block(nodes, index, sw);
    let next = index_block(nodes, index, se);
    put_four(
        index,
        at.node,
        [
            nw.node as u16,
            ne.node as u16,
            sw.node as u16,
            se.node as u16,
        ],
    );
    next
}

// The index has four entries for each node: for a divided block the nodes of its sons, for a leaf first where its listings start.
// stays: one array of places, as `Indexed` and all that path and column ask of it read it.
pub fn index_nodes(nodes: &[u16], index: &mut [u16])
    requires { Walkable nodes.now (length index.old) 0 0 }
    ensures { (t : Tree) → Standing nodes.now t 0 0 → Indexed index.new t 0 0 }
{
    index_block(
        nodes,
        index,
        Place {
            node: 0,
            listing: 0,
        },
    );
}

// The son that holds p, in a block with this corner and sons of this side.
fn son_over(p: Point, west: u16, south: u16, side: u16) -> Son
    requires { (west + side < 65536) × (south + side < 65536) }
    ensures { SonOver p west south side result.which result.west result.south }
{
    let east = west + side;
    let north = south + side;
    let western = p.x.0 < east;
    let southern = p.y.0 < north;
    match (western, southern) {
        (true, true) => Son {
            west,
            south,
            which: 2,
        },
        (true, false) => Son {
            west,
            south: north,
            which: 0,
        },
        (false, true) => Son {
            west: east,
            south,
            which: 3,
        },
        (false, false) => Son {
            west: east,
            south: north,
            which: 1,
        },
    }
}

// The leaf that holds p: one entry of the index read for each level.
// stays: beside path::own_leaf, which writes down the path for the walks to come back to.
pub fn leaf_over(nodes: &[u16], index: &[u16], p: Point) -> Leaf
    requires { Searchable nodes.now index.now }
    ensures { (t : Tree) → Standing nodes.now t 0 0 → Indexed index.now t 0 0 → LeafOver p t result }
{
    let mut node: usize = 0;
    let mut west: u16 = 0;
    let mut south: u16 = 0;
    let mut side: u16 = 32768;
    while nodes[node] == DIVIDED {
        side = side / 2;
        let son = son_over(p, west, south, side);
        west = son.west;
        south = son.south;
        let entry = 4 * node + son.which;
        node = usize::from(index[entry]);
    }
    Leaf {
        west: Half(west),
        south: Half(south),
        side,
        first: usize::from(index[4 * node]),
        count: usize::from(nodes[node]),
    }
}
