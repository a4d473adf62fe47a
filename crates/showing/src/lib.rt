// The leaf that show leaf is about.
#![tactic(auto)]

ghost use Rattle.std.specs.Prelude.{◌≤◌};
ghost use Rattle.definitions.specs.Shape.{grid_point};
ghost use Rattle.definitions.specs.Tree.{Tree, base_rule};
ghost use Rattle.tables.specs.Lent.{tables};
ghost use Rattle.walk.specs.Index.{Standing, Walkable, LeafOver};
ghost use Rattle.showing.specs.Asking.{AskedIs};

use definitions::Refusal;
use geometry::{on_grid, point_of};
use soundness::check;
use walk::{Leaf, index_nodes, leaf_over};

fn leaf_of(nodes: &[u16], x: u16, y: u16) -> Leaf
    requires { Walkable nodes.now 65536 0 0 × (x ≤ 16383) × (y ≤ 16383) }
    ensures { (t : Tree) → Standing nodes.now t 0 0 → LeafOver (grid_point x y) t result }
{
    // stays: an array, since there is no heap.
    let mut index = [0u16; 65536];
    index_nodes(nodes, &mut index);
    leaf_over(nodes, &index, point_of(x, y))
}

// The leaf that holds a grid point, or the refusal.
// stays: three slices, as its two callers are lent them; it hands them on once.
pub fn leaf_asked(
    lines: &[u16],
    nodes: &[u16],
    listings: &[u16],
    x: u16,
    y: u16,
) -> Result<Leaf, Refusal>
    ensures { AskedIs base_rule (tables lines.now nodes.now listings.now) x y result }
{
    check(lines, nodes, listings)?;
    if !(on_grid(x) & on_grid(y)) {
        return Err(Refusal::OffGrid);
    }
    Ok(leaf_of(nodes, x, y))
}
