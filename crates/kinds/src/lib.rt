// How the line in the way conflicts. Told once, when insert is refused: the test of all pairs stays a plain yes or no.
#![tactic(auto)]

ghost use Rattle.std.specs.Prelude.{◌≡◌, true, ◌≤◌};
ghost use Rattle.definitions.specs.Shape.{kind_of};
ghost use Rattle.definitions.specs.Calls.{all_on_grid, kind_number, conflict_detail};
ghost use Rattle.geometry.specs.Means.{line_of};
ghost use Rattle.geometry.specs.Range.{LineEnds};
ghost use Rattle.tables.specs.Rows.{OnMap};

use definitions::{Given, Kind};
use geometry::{Line, both_sides, ends_at, line_of, straight, turn};
use tables::line_at;

// Of lines that conflict.
pub fn kind_of(l: Line, m: Line) -> Kind
    requires { LineEnds (line_of l) × LineEnds (line_of m) }
    ensures { result ≡ kind_of (line_of l) (line_of m) }
{
    if ends_at(m, l.a) & ends_at(m, l.b) {
        return Kind::Same;
    }
    let s = turn(l.a, l.b, m.a);
    let t = turn(l.a, l.b, m.b);
    if straight(s) & straight(t) {
        return Kind::Overlap;
    }
    let u = turn(m.a, m.b, l.a);
    let v = turn(m.a, m.b, l.b);
    if both_sides(s, t) & both_sides(u, v) {
        return Kind::Crossing;
    }
    Kind::Touching
}

// stays: numbers, which C reads. With Kind's variants two of one number would not compile, which the edit overlap_numbered_as_same tries; a From could stand only where Kind is declared, and no function does.
pub fn kind_number(k: Kind) -> u32
    ensures { (result ≡ kind_number k) × (result ≤ 4) }
{
    match k {
        Kind::Crossing => 1,
        Kind::Touching => 2,
        Kind::Overlap => 3,
        Kind::Same => 4,
    }
}

// The detail of refusal 5: how the line of slot s conflicts with the given one, and the slot.
pub fn conflict_detail(lines: &[u16], s: usize, g: Given) -> u32
    requires { OnMap lines.now s × (s ≤ 1023) × (all_on_grid g ≡ true) }
    ensures { result ≡ conflict_detail lines.now s g }
{
    // stays: `as`. A slot fits, and try_from would bring an error that cannot happen.
    let k = kind_of(line_at(lines, s as u16), line_of(g.x1, g.y1, g.x2, g.y2));
    kind_number(k) * 65536 + (s as u32)
}
