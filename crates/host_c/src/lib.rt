// What C calls: the six exports of the static library. Each has the name, the parameters and the clauses of the function of `host` that it calls.
// stays: host once more. A crate is a library or a static library, and the programs need host as a library.
#![tactic(auto)]

ghost use Rattle.std.specs.Prelude.{◌≡◌};
ghost use Rattle.definitions.specs.Tree.{base_rule};
ghost use Rattle.definitions.specs.Calls.{start_of, insert_of, delete_of};
ghost use Rattle.definitions.specs.Lookup.{locate_of};
ghost use Rattle.definitions.specs.Window.{window_of};
ghost use Rattle.tables.specs.Lent.{tables};
ghost use Rattle.host.specs.Numbers.{Tells, Answers, Lists, version};

#[unsafe(no_mangle)]
pub extern "C" fn boundary_map_start(
    lines: &mut [u16],
    nodes: &mut [u16],
    listings: &mut [u16],
) -> u64
    ensures { Tells result lines.new nodes.new listings.new (start_of (tables lines.old nodes.old listings.old)) }
{
    host::boundary_map_start(lines, nodes, listings)
}

#[unsafe(no_mangle)]
pub extern "C" fn boundary_map_insert(
    lines: &mut [u16],
    nodes: &mut [u16],
    listings: &mut [u16],
    x1: u16,
    y1: u16,
    x2: u16,
    y2: u16,
    left: u16,
    right: u16,
) -> u64
    ensures { Tells result lines.new nodes.new listings.new
        (insert_of base_rule (tables lines.old nodes.old listings.old) (record { x1 = x1; y1 = y1; x2 = x2; y2 = y2; left = left; right = right })) }
{
    host::boundary_map_insert(lines, nodes, listings, x1, y1, x2, y2, left, right)
}

#[unsafe(no_mangle)]
pub extern "C" fn boundary_map_delete(
    lines: &mut [u16],
    nodes: &mut [u16],
    listings: &mut [u16],
    handle: u32,
) -> u64
    ensures { Tells result lines.new nodes.new listings.new (delete_of base_rule (tables lines.old nodes.old listings.old) handle) }
{
    host::boundary_map_delete(lines, nodes, listings, handle)
}

#[unsafe(no_mangle)]
pub extern "C" fn boundary_map_locate(
    lines: &[u16],
    nodes: &[u16],
    listings: &[u16],
    points: &[u16],
    answers: &mut [u32],
) -> u64
    ensures { Answers result answers.new (locate_of base_rule (tables lines.now nodes.now listings.now) points.now answers.old) }
{
    host::boundary_map_locate(lines, nodes, listings, points, answers)
}

#[unsafe(no_mangle)]
pub extern "C" fn boundary_map_window(
    lines: &[u16],
    nodes: &[u16],
    listings: &[u16],
    west: u16,
    south: u16,
    east: u16,
    north: u16,
    slots: &mut [u16],
) -> u64
    ensures { Lists result slots.new
        (window_of base_rule (tables lines.now nodes.now listings.now) (record { west = west; south = south; east = east; north = north }) slots.old) }
{
    host::boundary_map_window(lines, nodes, listings, west, south, east, north, slots)
}

#[unsafe(no_mangle)]
pub extern "C" fn boundary_map_version() -> u32
    ensures { result ≡ version }
{
    host::boundary_map_version()
}
