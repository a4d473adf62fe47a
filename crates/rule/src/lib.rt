// The rule of division: when a block is left whole.
#![tactic(auto)]

ghost use Rattle.std.specs.Prelude.{◌≡◌, map};
ghost use Rattle.algebra.specs.Words.{every};
ghost use Rattle.definitions.specs.Tables.{line_at};
ghost use Rattle.definitions.specs.Tree.{simple as simpleOf};
ghost use Rattle.geometry.specs.Means.{line_of, block_of};
ghost use Rattle.rule.specs.Rule.{Candidates, hangs, hangs_at, left_whole};

use definitions::Point;
use geometry::{Block, Line, inside, same_point};
use tables::line_at;

// v is an end of the line, and the other end lies outside the block.
pub fn hangs_on(k: Block, l: Line, v: Point) -> bool
    ensures { result ≡ hangs (block_of k) v (line_of l) }
{
    if same_point(l.a, v) {
        return !inside(k, l.b);
    }
    same_point(l.b, v) & !inside(k, l.a)
}

// stays: lines, slots and k as parameters with `Candidates` asked of them, here and below. Of a struct `simple` would make one anew for the slots after the first.
pub fn all_hang_on(lines: &[u16], slots: &[u16], k: Block, v: Point) -> bool
    requires { Candidates lines.now (block_of k) slots.now }
    ensures { result ≡ every (hangs_at lines.now (block_of k) v) slots.now }
{
    slots.iter().all(|&s| hangs_on(k, line_at(lines, s), v))
}

// C1, C2' and C3, of the slots of the lines that meet the block: an end of the first of them decides.
pub fn simple(lines: &[u16], slots: &[u16], k: Block) -> bool
    requires { Candidates lines.now (block_of k) slots.now }
    ensures { result ≡ simpleOf (map (line_at lines.now) slots.now) (block_of k) }
{
    let Some((&slot, others)) = slots.split_first() else {
        return true;
    };
    let l = line_at(lines, slot);
    let first = inside(k, l.a);
    let second = inside(k, l.b);
    if first & second {
        return false;
    }
    if others.is_empty() {
        return true;
    }
    if first {
        return all_hang_on(lines, others, k, l.a);
    }
    if second {
        return all_hang_on(lines, others, k, l.b);
    }
    false
}

// The level of a block of side 2.
const SMALLEST: u16 = 0;

// Such a block is never divided.
pub fn left_whole(lines: &[u16], slots: &[u16], k: Block, level: u16) -> bool
    requires { Candidates lines.now (block_of k) slots.now }
    ensures { result ≡ left_whole level (simpleOf (map (line_at lines.now) slots.now) (block_of k)) }
{
    if level == SMALLEST {
        return true;
    }
    simple(lines, slots, k)
}
