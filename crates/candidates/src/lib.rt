// The candidates of a block, spread to its four sons.
#![tactic(auto)]

ghost use Rattle.std.specs.Prelude.{◌≡◌};
ghost use Rattle.geometry.specs.Means.{block_of};
ghost use Rattle.candidates.specs.Spread.{Spreadable, Spread};

use geometry::{Block, Sons, sons_met};
use tables::line_at;

// stays: places in one list of slots and not lists of their own, since there is no heap.
// Candidates: the slots from..to of a list of slots, which is free from `free` on.
#[derive(Clone, Copy)]
pub struct Span {
    pub from: usize,
    pub to: usize,
    pub free: usize,
}

impl Span {
    pub fn new(from: usize, to: usize, free: usize) -> Span
        ensures { result ≡ record { from = from; to = to; free = free } }
    {
        Span { from, to, free }
    }
}

// Each candidate put to the lists of the sons that it meets, each list having room for all.
// It is written to all four lists; those of sons that it misses do not grow, so the next overwrites it.
pub fn spread(lines: &[u16], slots: &mut [u16], c: Span, k: Block) -> Sons<Span>
    requires { Spreadable lines.now slots.old c (block_of k) }
    ensures { Spread lines.now (block_of k) c slots.old slots.new result }
{
    let n = c.to - c.from;
    let first = c.free;
    let second = first + n;
    let third = second + n;
    let fourth = third + n;
    let mut nw = first;
    let mut ne = second;
    let mut sw = third;
    let mut se = fourth;
    // stays: by place, since the list that is gone over is written too.
    for i in c.from..c.to {
        let s = slots[i];
        let m = sons_met(k, line_at(lines, s));
        slots[nw] = s;
        slots[ne] = s;
        slots[sw] = s;
        slots[se] = s;
        nw += usize::from(m.nw);
        ne += usize::from(m.ne);
        sw += usize::from(m.sw);
        se += usize::from(m.se);
    }
    let free = fourth + n;
    Sons {
        nw: Span::new(first, nw, free),
        ne: Span::new(second, ne, free),
        sw: Span::new(third, sw, free),
        se: Span::new(fourth, se, free),
    }
}
