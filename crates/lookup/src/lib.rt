// The answers to points: from the leaf that holds each, a walk of its column of leaves south and, if nothing counts there, north; where
// that costs more than walks have earned, plain searches.
#![tactic(auto)]

ghost use Rattle.std.specs.Prelude.{◌≡◌, ◌+◌, ◌*◌, min, length};
ghost use Rattle.definitions.specs.Lookup.{answer_at, answer_to, answers_to};
ghost use Rattle.geometry.specs.Range.{End};
ghost use Rattle.scan.specs.Asked.{Plain};
ghost use Rattle.path.specs.Placed.{Mapped};
ghost use Rattle.column.specs.Asked.{LeafAsked, LeafTold};
ghost use Rattle.lookup.specs.Asked.{Ready, Counting, ToldBy, FoundIs, WalkAsked, AskedFrom};

use column::{Later, NO_BLOCK, go_down, scan_leaf, settled, take_up};
use definitions::Point;
use geometry::{on_grid, point_of};
use path::{Fork, NO_FORK, Spot, beside, own_leaf, turn_off};
use scan::{Scan, answer_by, answer_on, search_all};
use tables::live_slots;
use walk::index_nodes;

// Walks are paid for, so that a list of points takes at most about a third longer than plain searches of all live lines would, and
// half on small maps made against it.
// One is paid for about the time that a plain search takes over 2 lines: START for each point that is walked for, LEAF for each leaf on
// either way and 2 for each line of a leaf, since most lines there have to be compared. A way brings half the live lines if it is walked
// to its end, an eighth if a plain search has to take it, and nothing with fewer than 32: they are searched plainly as a rule. At most
// MOST is kept.
const START: usize = 16;

const LEAF: usize = 4;

const MOST: usize = 512;

// A map to look up in: its tables, the index of its nodes, and its live slots.
// stays: each method asks for `Ready`. Tried as a ghost field, which is refused: it holds a rule of division, and so is no proposition.
#[derive(Clone, Copy)]
struct Map<'a> {
    lines: &'a [u16],
    nodes: &'a [u16],
    listings: &'a [u16],
    index: &'a [u16],
    live: &'a [u16],
}

// What walks share: the path to the leaf of a point, the blocks put by, and what is left to pay for walks with.
#[derive(Clone, Copy)]
struct Walks {
    path: [Fork; 16],
    later: [Later; 16],
    left: usize,
}

// What is left for the next walk.
fn earn(left: usize, more: usize) -> usize
    ensures { result ≡ min (left + more) 512 }
{
    left.saturating_add(more).min(MOST)
}

// What a leaf of so many lines costs.
fn cost_of(count: u16) -> usize
    ensures { result ≡ 4 + 2 * count }
{
    LEAF + 2 * usize::from(count)
}

// The answer by the best line, if there is one.
fn answer_of(lines: &[u16], best: Option<u16>, south: bool) -> Option<u32>
    requires { Counting lines.now south best }
    ensures { ToldBy lines.now south best result }
{
    best.map(|s| answer_by(lines, s, south))
}

impl Map<'_> {
    // What is found on one way: the answer by the line through p, or else by the best line on the way.
    fn search_plainly(&self, p: Point, left: &mut usize, south: bool) -> Option<u32>
        requires { Ready self.now × End p }
        ensures { FoundIs self.now.lines.now south p result }
    {
        *left = earn(*left, self.live.len() / 32 * 4);
        match search_all(self.lines, self.live, p, south) {
            Scan::On(s) => Some(answer_on(s)),
            Scan::Best(best) => answer_of(self.lines, best, south),
        }
    }

    // The lines of the leaf at this node, after the best line c of those before.
    fn scan(&self, p: Point, node: usize, c: Option<u16>, south: bool) -> Scan
        requires { LeafAsked self.now.lines.now self.now.nodes.now self.now.listings.now self.now.index.now p node c south }
        ensures { LeafTold self.now.lines.now self.now.nodes.now self.now.listings.now self.now.index.now p node c south result }
    {
        scan_leaf(
            self.lines,
            self.nodes,
            self.listings,
            self.index,
            p,
            node,
            c,
            south,
        )
    }

    // A walk of the column of leaves over p, from its own leaf on. What a leaf costs is asked before it is scanned; if that is not
    // there, a plain search.
    fn walk_column(&self, walks: &mut Walks, p: Point, own: Spot, south: bool) -> Option<u32>
        requires { WalkAsked self.now p walks.old.path own }
        ensures found { FoundIs self.now.lines.now south p result }
        ensures kept { walks.new.path ≡ walks.old.path }
    {
        let mut at = Spot { by: 0, ..own };
        let mut level = own.by;
        let mut best = None;
        // At hand, since each leaf reads and writes it.
        let mut left = walks.left;
        'leaves: loop {
            let cost = cost_of(self.nodes[at.node]);
            if left < cost {
                walks.left = left;
                return self.search_plainly(p, &mut walks.left, south);
            }
            left -= cost;
            match self.scan(p, at.node, best, south) {
                Scan::On(s) => {
                    walks.left = earn(left, self.live.len() / 2);
                    return Some(answer_on(s));
                }
                Scan::Best(d) => best = d,
            }
            if settled(self.lines, p, at.block, best, south) {
                break;
            }
            if at.by == 0 {
                let Some(up) = turn_off(&walks.path, p, level, south) else {
                    break;
                };
                level = up;
                at = beside(self.index, &walks.path, level, south);
            } else {
                at = take_up(&walks.later, at.by - 1);
            }
            at = go_down(self.nodes, self.index, &mut walks.later, p, at, south);
        }
        walks.left = earn(left, self.live.len() / 2);
        answer_of(self.lines, best, south)
    }

    // The leaf to walk from, if a walk is paid for.
    fn start(&self, walks: &mut Walks, p: Point) -> Option<Spot>
        requires { Ready self.now × End p }
        ensures { AskedFrom self.now p walks.new.path result }
    {
        if walks.left <= START {
            return None;
        }
        let own = own_leaf(self.nodes, self.index, &mut walks.path, p);
        walks.left -= START;
        Some(own)
    }

    // What is found on one way, by a walk from this leaf or else by a plain search.
    fn ask(&self, walks: &mut Walks, p: Point, own: Option<Spot>, south: bool) -> Option<u32>
        requires { AskedFrom self.now p walks.old.path own }
        ensures found { FoundIs self.now.lines.now south p result }
        ensures kept { walks.new.path ≡ walks.old.path }
    {
        match own {
            Some(leaf) => self.walk_column(walks, p, leaf, south),
            None => self.search_plainly(p, &mut walks.left, south),
        }
    }

    // stays: numbers, here and below, which C reads.
    // The answer to a point of the grid: that of the first way on which anything is found, south and then north.
    fn answer_at(&self, walks: &mut Walks, p: Point) -> u32
        requires { Ready self.now × End p }
        ensures { result ≡ answer_at self.now.lines.now p }
    {
        let own = self.start(walks, p);
        for south in [true, false] {
            if let Some(answer) = self.ask(walks, p, own, south) {
                return answer;
            }
        }
        0
    }

    // The answer to a pair of grid numbers, any 16-bit numbers.
    fn answer_to(&self, walks: &mut Walks, x: u16, y: u16) -> u32
        requires { Ready self.now }
        ensures { result ≡ answer_to self.now.lines.now x y }
    {
        if on_grid(x) & on_grid(y) {
            return self.answer_at(walks, point_of(x, y));
        }
        u32::MAX
    }

    // The answers to all points, two numbers each.
    fn answer_each(&self, points: &[u16], answers: &mut [u32])
        requires { Ready self.now × (length points.now ≡ 2 * length answers.old) }
        ensures { answers.new ≡ answers_to self.now.lines.now points.now }
    {
        let mut walks = Walks {
            path: [NO_FORK; 16],
            later: [NO_BLOCK; 16],
            left: MOST,
        };
        // stays: a point by its two places. Of chunks of two, zipped with the answers, each would be read by place as well.
        for (at, answer) in answers.iter_mut().enumerate() {
            *answer = self.answer_to(&mut walks, points[2 * at], points[2 * at + 1]);
        }
    }
}

// The same, for a sound map: its index and its live slots are made here.
pub fn answer_all(
    lines: &[u16],
    nodes: &[u16],
    listings: &[u16],
    points: &[u16],
    answers: &mut [u32],
)
    requires { Mapped lines.now nodes.now listings.now × (length points.now ≡ 2 * length answers.old) }
    ensures { answers.new ≡ answers_to lines.now points.now }
{
    // stays: arrays, since there is no heap.
    let mut index = [0u16; 65536];
    let mut live = [0u16; 1024];
    let n = live_slots(lines, &mut live);
    index_nodes(nodes, &mut index);
    let map = Map {
        lines,
        nodes,
        listings,
        index: &index,
        live: &live[..n],
    };
    map.answer_each(points, answers);
}
