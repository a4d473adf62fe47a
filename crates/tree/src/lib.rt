// The build walk.
#![tactic(auto)]

ghost use Rattle.std.specs.Prelude.{[], ◌∷◌, suc, ◌≤◌, ◌<◌, length};
ghost use Rattle.std.proofs.Math.Seq.{slice};
ghost use Rattle.geometry.specs.Means.{block_of};
ghost use Rattle.tree.specs.Builds.{GoodTable, Ready, BuiltIs, Grown, block_nodes, block_listings, sons_nodes, sons_listings, TreeBuilt};

use candidates::{Span, spread};
use geometry::{Block, north_east, north_west, south_east, south_west, whole_map};
use rule::left_whole;
use tables::{DIVIDED, Place, copy, live_slots};

// Each build gives the next free places, or None where one of the tables is too short.

// A leaf, where the node table has room for its node.
pub fn put_leaf(slots: &[u16], nodes: &mut [u16], listings: &mut [u16], at: Place) -> Option<Place>
    requires { (length slots.now ≤ 1024) × (at.node < length nodes.old) × (at.listing ≤ length listings.old) }
    ensures { BuiltIs (length slots.now ∷ []) slots.now at nodes.old listings.old nodes.new listings.new result }
{
    let n = slots.len();
    let node = at.node;
    let listing = at.listing;
    if listings.len() - listing < n {
        return None;
    }
    let next = Place {
        node: node + 1,
        listing: listing + n,
    };
    // stays: a leaf has 1,024 slots at most, and try_from would bring an error that cannot happen.
    nodes[node] = n as u16;
    copy(slots, &mut listings[listing..]);
    Some(next)
}

// stays: slots, nodes and listings as parameters, here and below. Of a struct of three `&mut` each function would have to promise, for each field, that the borrow it leaves is the one it was lent.
// The tree of a block with these candidates. A block at level n has side 2 x 2^n.
#[cycle(build_block_build_sons)]
pub fn build_block(
    lines: &[u16],
    slots: &mut [u16],
    c: Span,
    k: Block,
    level: u16,
    nodes: &mut [u16],
    listings: &mut [u16],
    at: Place,
) -> Option<Place>
    requires { Ready lines.now slots.old c (block_of k) level at (length nodes.old) (length listings.old) }
    ensures { Grown
        (block_nodes lines.now (slice c.from c.to slots.old) level (block_of k))
        (block_listings lines.now (slice c.from c.to slots.old) level (block_of k))
        at nodes.old listings.old nodes.new listings.new
        c.free slots.old slots.new result }
{
    let from = c.from;
    let to = c.to;
    let node = at.node;
    if nodes.len() <= node {
        return None;
    }
    if left_whole(lines, &slots[from..to], k, level) {
        return put_leaf(&slots[from..to], nodes, listings, at);
    }
    nodes[node] = DIVIDED;
    let next = Place {
        node: node + 1,
        listing: at.listing,
    };
    build_sons(lines, slots, c, k, level - 1, nodes, listings, next)
}

// The trees of the block's four sons, which are at this level.
#[cycle(build_block_build_sons)]
pub fn build_sons(
    lines: &[u16],
    slots: &mut [u16],
    c: Span,
    k: Block,
    level: u16,
    nodes: &mut [u16],
    listings: &mut [u16],
    at: Place,
) -> Option<Place>
    requires { Ready lines.now slots.old c (block_of k) (suc level) at (length nodes.old) (length listings.old) }
    ensures { Grown
        (sons_nodes lines.now (slice c.from c.to slots.old) level (block_of k))
        (sons_listings lines.now (slice c.from c.to slots.old) level (block_of k))
        at nodes.old listings.old nodes.new listings.new
        c.free slots.old slots.new result }
{
    let s = spread(lines, slots, c, k);
    let sons = [
        (s.nw, north_west(k)),
        (s.ne, north_east(k)),
        (s.sw, south_west(k)),
        (s.se, south_east(k)),
    ];
    let mut next = at;
    for (son, block) in sons {
        next = build_block(lines, slots, son, block, level, nodes, listings, next)?;
    }
    Some(next)
}

// The tree of the live lines, from the start of both tables.
pub fn build(lines: &[u16], nodes: &mut [u16], listings: &mut [u16]) -> Option<Place>
    requires { GoodTable lines.now }
    ensures { TreeBuilt lines.now nodes.old listings.old nodes.new listings.new result }
{
    // stays: one array for all levels, since there is no heap.
    // 57 x 1,024: the live slots, and the lists of four sons at each of 14 levels.
    let mut slots = [0u16; 58368];
    let n = live_slots(lines, &mut slots);
    let all = Span::new(0, n, n);
    let start = Place {
        node: 0,
        listing: 0,
    };
    build_block(
        lines,
        &mut slots,
        all,
        whole_map(),
        14,
        nodes,
        listings,
        start,
    )
}
