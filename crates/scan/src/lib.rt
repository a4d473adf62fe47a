// A list of slots scanned for a point: the line through it, or the best line on the way from it; and a plain search of all live lines.
#![tactic(auto)]

ghost use Rattle.std.specs.Prelude.{◌≡◌, ◌+◌, ◌<◌};
ghost use Rattle.geometry.specs.Means.{line_of};
ghost use Rattle.geometry.specs.Range.{End, LineEnds};
ghost use Rattle.meaning.specs.Ahead.{ahead_by_turns};
ghost use Rattle.tables.specs.Rows.{OnMap};
ghost use Rattle.scan.specs.Asked.{Compared, first_of, label_by, Scannable, ScanIs, Plain, SearchIs};

use definitions::Point;
use geometry::{Line, Stand, eastward, higher, stand_of};
use tables::{line_at, lower_label, row_at, upper_label};

// stays: a Bool for the way, by which every law of the order and of the walk is.
// Everywhere below, south tells the way from the point: lines below it, the higher first; else lines above it, the lower first.

// What a scan of slots finds: the first line through the point; or, where there is none, the best line on the way.
// stays: neither case is a failure, and these words say which it is, as `Break` and `Continue` would not.
#[derive(Clone, Copy)]
pub enum Scan {
    On(u16),
    Best(Option<u16>),
}

// By the way, l comes before m.
fn comes_first(l: Line, m: Line, south: bool) -> bool
    requires { (l.a.x.0 < l.b.x.0) × (m.a.x.0 < m.b.x.0) × LineEnds (line_of l) × LineEnds (line_of m) }
    ensures { result ≡ ahead_by_turns south (line_of l) (line_of m) }
{
    if south {
        return higher(l, m);
    }
    higher(m, l)
}

// Of the best line so far and that of slot s, which has the ends of l, the one that comes first.
fn first_of(lines: &[u16], best: Option<u16>, s: u16, l: Line, south: bool) -> Option<u16>
    requires { Compared lines.now south best s l }
    ensures { result ≡ first_of lines.now south best s }
{
    match best {
        None => Some(s),
        Some(t) => {
            if comes_first(eastward(l), eastward(line_at(lines, t)), south) {
                return Some(s);
            }
            best
        }
    }
}

// The slots looked at in turn, after the best line c of those before.
pub fn scan_slots(lines: &[u16], slots: &[u16], p: Point, c: Option<u16>, south: bool) -> Scan
    requires { Scannable lines.now slots.now south p c }
    ensures { ScanIs lines.now south p c slots.now result }
{
    let mut best = c;
    for &s in slots {
        let l = line_at(lines, s);
        match stand_of(l, p, south) {
            Stand::On => return Scan::On(s),
            Stand::Counts => {
                best = first_of(lines, best, s, l, south);
            }
            Stand::Aside => {}
        }
    }
    Scan::Best(best)
}

// The answer to a point on the line of slot s.
// stays: a number, here and below, which C reads.
pub fn answer_on(s: u16) -> u32
    ensures { result ≡ 65536 + s }
{
    65536 + u32::from(s)
}

// The answer by the line of slot s: its upper label if it lies below the point, its lower label if above.
pub fn answer_by(lines: &[u16], s: u16, south: bool) -> u32
    requires { OnMap lines.now s }
    ensures { result ≡ label_by lines.now south s }
{
    let row = row_at(lines, usize::from(s));
    if south {
        return u32::from(upper_label(row));
    }
    u32::from(lower_label(row))
}

// All live lines looked at.
pub fn search_all(lines: &[u16], live: &[u16], p: Point, south: bool) -> Scan
    requires { Plain lines.now live.now × End p }
    ensures { SearchIs lines.now south p result }
{
    scan_slots(lines, live, p, None, south)
}
