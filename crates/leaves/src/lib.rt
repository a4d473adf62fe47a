// Conflicts between live lines, tested only between lines of one leaf: lines that share a point share a leaf.
#![tactic(auto)]

ghost use Rattle.std.specs.Prelude.{◌≡◌, false, not, ◌*◌, ◌/◌, ◌≤◌, ◌<◌, length};
ghost use Rattle.algebra.specs.Words.{every, those};
ghost use Rattle.definitions.specs.Shape.{same_point};
ghost use Rattle.definitions.specs.Tables.{none_conflict};
ghost use Rattle.geometry.specs.Means.{line_of};
ghost use Rattle.geometry.specs.Range.{End, LineEnds};
ghost use Rattle.leaves.specs.Fans.{leaves_left};
ghost use Rattle.leaves.specs.Sides.{ends_at, on_side, Fan, Kept};
ghost use Rattle.leaves.specs.Parting.{far_end, mean_end, pivot_of};
ghost use Rattle.leaves.specs.Pass.{clear_of, leaf_apart, Good, TreeUsed};

use definitions::{Half, Point};
use geometry::{Line, conflict, ends_at, left, same_point, turn};
use tables::{DIVIDED, Lent, line_at};

// To test the pairs of fewer lines costs less than to part them.
const FEW: usize = 12;

// Each level has its own array on the stack; what is left whole below the last is tested pair by pair.
const DEPTH: u16 = 12;

// A leaf of so many lines needs no test.
const ALONE: usize = 1;

// l conflicts with the line of one of the slots.
// stays: lines and slots as parameters with `Good` asked of them, here and below. Tried as a struct: each part of the slots that is handed on is then a literal of five lines.
pub fn conflicts_with(lines: &[u16], slots: &[u16], l: Line) -> bool
    requires { Good lines.now slots.now × (same_point l.a l.b ≡ false) × LineEnds (line_of l) }
    ensures { result ≡ not (clear_of lines.now (line_of l) slots.now) }
{
    slots.iter().any(|&s| conflict(l, line_at(lines, s)))
}

// The lines of two of the slots conflict: each is tested with those after it.
pub fn pairs_conflict(lines: &[u16], slots: &[u16]) -> bool
    requires { Good lines.now slots.now }
    ensures { result ≡ not (leaf_apart lines.now slots.now) }
{
    for (i, &s) in slots.iter().enumerate() {
        if conflicts_with(lines, &slots[i + 1..], line_at(lines, s)) {
            return true;
        }
    }
    false
}

// v is an end of every line.
pub fn all_end_at(lines: &[u16], slots: &[u16], v: Point) -> bool
    requires { Good lines.now slots.now }
    ensures { result ≡ every (ends_at lines.now v) slots.now }
{
    slots.iter().all(|&s| ends_at(line_at(lines, s), v))
}

// The end of the line that is not v.
pub fn far_end(l: Line, v: Point) -> Point
    ensures { result ≡ far_end v (line_of l) }
{
    if same_point(l.a, v) {
        return l.b;
    }
    l.a
}

// The line, which has an end at v, leaves it to the left of the way from v to w: at the end that is v the turn is 0.
pub fn leaves_left(l: Line, v: Point, w: Point) -> bool
    requires { LineEnds (line_of l) × End v × End w }
    ensures { result ≡ leaves_left v w (line_of l) }
{
    left(turn(v, w, l.a)) | left(turn(v, w, l.b))
}

// The slots whose lines leave v on this side of the way to w, at the front of kept, and how many.
// stays: a Bool for the side, as `on_side` has it.
// stays: the count beside the buffer. `Kept` says what the buffer holds afterwards, which no clause can say of one that is handed on as a slice.
pub fn keep(lines: &[u16], slots: &[u16], kept: &mut [u16], v: Point, w: Point, side: bool) -> usize
    requires { Good lines.now slots.now × (length slots.now ≤ length kept.old) × End v × End w }
    ensures { Kept (on_side lines.now v w side) slots.now kept.new result }
{
    let mut n: usize = 0;
    for &s in slots {
        let left = leaves_left(line_at(lines, s), v, w);
        let here = left == side;
        if here {
            kept[n] = s;
            n += 1;
        }
    }
    n
}

// The mean of so many numbers, by their sum.
pub fn mean(sum: usize, count: usize) -> u16
    requires { (0 < count) × (sum ≤ 65535 * count) }
    ensures { result ≡ sum / count }
{
    // stays: the mean of 16-bit numbers fits, and try_from would bring an error that cannot happen.
    (sum / count) as u16
}

// The mean of the far ends of the lines of a fan at v.
pub fn mean_end(lines: &[u16], slots: &[u16], v: Point) -> Point
    requires { Good lines.now slots.now × (0 < length slots.now) × (length slots.now ≤ 1024) }
    ensures { result ≡ mean_end lines.now v slots.now }
{
    let mut x: usize = 0;
    let mut y: usize = 0;
    for &s in slots {
        let far = far_end(line_at(lines, s), v);
        x += usize::from(far.x.0);
        y += usize::from(far.y.0);
    }
    let n = slots.len();
    Point {
        x: Half(mean(x, n)),
        y: Half(mean(y, n)),
    }
}

// The point that the fan is parted by: any would do. The levels take turns: no order of the slots is bad for the mean, and no
// shape of the fan for an end of its own.
pub fn pivot(lines: &[u16], slots: &[u16], v: Point, depth: u16) -> Point
    requires { Good lines.now slots.now × (0 < length slots.now) × (length slots.now ≤ 1024) }
    ensures { result ≡ pivot_of lines.now v slots.now depth }
{
    if depth % 2 == 0 {
        let i = slots.len() / 2;
        return far_end(line_at(lines, slots[i]), v);
    }
    mean_end(lines, slots, v)
}

// The lines of a fan at v conflict. Lines on different sides of a way from v never do, so each side is tested for itself.
#[cycle(fan_conflicts_side_conflicts)]
pub fn fan_conflicts(lines: &[u16], slots: &[u16], v: Point, depth: u16) -> bool
    requires { Fan lines.now v slots.now }
    ensures { result ≡ not (leaf_apart lines.now slots.now) }
{
    let n = slots.len();
    if (n < FEW) | (depth == 0) {
        return pairs_conflict(lines, slots);
    }
    let w = pivot(lines, slots, v, depth);
    let less = depth - 1;
    if side_conflicts(lines, slots, v, w, less, true) {
        return true;
    }
    side_conflicts(lines, slots, v, w, less, false)
}

// The lines of the fan on this side of the way from v to w conflict.
#[cycle(fan_conflicts_side_conflicts)]
pub fn side_conflicts(
    lines: &[u16],
    slots: &[u16],
    v: Point,
    w: Point,
    depth: u16,
    side: bool,
) -> bool
    requires { Fan lines.now v slots.now × End w }
    ensures { result ≡ not (leaf_apart lines.now (those (on_side lines.now v w side) slots.now)) }
{
    // stays: an array, since there is no heap.
    let mut kept = [0u16; 1024];
    let n = keep(lines, slots, &mut kept, v, w, side);
    fan_conflicts(lines, &kept[..n], v, depth)
}

// The lines of two of the slots conflict. Where a leaf has many lines they mostly have a common end.
pub fn leaf_conflicts(lines: &[u16], slots: &[u16]) -> bool
    requires { Good lines.now slots.now }
    ensures { result ≡ not (leaf_apart lines.now slots.now) }
{
    let n = slots.len();
    if (n < FEW) | (1024 < n) {
        return pairs_conflict(lines, slots);
    }
    let l = line_at(lines, slots[0]);
    if all_end_at(lines, slots, l.a) {
        return fan_conflicts(lines, slots, l.a, DEPTH);
    }
    if all_end_at(lines, slots, l.b) {
        return fan_conflicts(lines, slots, l.b, DEPTH);
    }
    pairs_conflict(lines, slots)
}

// Two live lines conflict. One pass over what the tree uses of its two tables; a leaf of 0 or 1 lines needs no test.
pub fn conflicts_in_leaves(t: Lent, used: usize) -> bool
    requires { TreeUsed t.lines.now t.nodes.now t.listings.now used }
    ensures { result ≡ not (none_conflict t.entry.lines.now) }
{
    let mark = usize::from(DIVIDED);
    let mut rest = t.listings;
    for &node in &t.nodes[..used] {
        let n = usize::from(node);
        if n != mark {
            let (leaf, others) = rest.split_at(n);
            if ALONE < n && leaf_conflicts(t.lines, leaf) {
                return true;
            }
            rest = others;
        }
    }
    false
}
