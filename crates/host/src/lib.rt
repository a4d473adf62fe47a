// The C boundary: start, insert, delete, locate and window on numbers and lent slices. Each gives one 64-bit number. And the version.
#![tactic(auto)]

ghost use Rattle.std.specs.Prelude.{◌≡◌};
ghost use Rattle.definitions.specs.Tree.{base_rule};
ghost use Rattle.definitions.specs.Calls.{number_of, start_of, insert_of, delete_of};
ghost use Rattle.definitions.specs.Lookup.{locate_of};
ghost use Rattle.definitions.specs.Window.{window_of};
ghost use Rattle.tables.specs.Lent.{tables};
ghost use Rattle.host.specs.Numbers.{Tells, Answers, Lists, version};

use definitions::{Answer, Given, Refusal, Window};

// What a refusal counts for in an answer's number; the detail is below it.
const REFUSAL: u64 = 4294967296;

// refusal x 4,294,967,296 + detail
// stays: the refusals' numbers, which C reads. No From of a Result can stand here, where neither of the two types is declared.
pub fn number(answer: Answer) -> u64
    ensures { result ≡ number_of answer }
{
    match answer {
        Ok(detail) => u64::from(detail),
        Err(Refusal::Lengths) => REFUSAL,
        Err(Refusal::Damaged) => 2 * REFUSAL,
        Err(Refusal::OffGrid) => 3 * REFUSAL,
        Err(Refusal::NoLength) => 4 * REFUSAL,
        Err(Refusal::Conflict(detail)) => 5 * REFUSAL + u64::from(detail),
        Err(Refusal::NoSlot) => 6 * REFUSAL,
        Err(Refusal::NoRoom) => 7 * REFUSAL,
        Err(Refusal::UnknownHandle) => 8 * REFUSAL,
        Err(Refusal::BadWindow) => 9 * REFUSAL,
        Err(Refusal::ListShort) => 10 * REFUSAL,
    }
}

#[unsafe(no_mangle)]
pub extern "C" fn boundary_map_start(
    lines: &mut [u16],
    nodes: &mut [u16],
    listings: &mut [u16],
) -> u64
    ensures { Tells result lines.new nodes.new listings.new (start_of (tables lines.old nodes.old listings.old)) }
{
    number(map::start(lines, nodes, listings))
}

#[unsafe(no_mangle)]
pub extern "C" fn boundary_map_insert(
    lines: &mut [u16],
    nodes: &mut [u16],
    listings: &mut [u16],
    x1: u16,
    y1: u16,
    x2: u16,
    y2: u16,
    left: u16,
    right: u16,
) -> u64
    ensures { Tells result lines.new nodes.new listings.new
        (insert_of base_rule (tables lines.old nodes.old listings.old) (record { x1 = x1; y1 = y1; x2 = x2; y2 = y2; left = left; right = right })) }
{
    let g = Given {
        x1,
        y1,
        x2,
        y2,
        left,
        right,
    };
    number(map::insert(lines, nodes, listings, g))
}

#[unsafe(no_mangle)]
pub extern "C" fn boundary_map_delete(
    lines: &mut [u16],
    nodes: &mut [u16],
    listings: &mut [u16],
    handle: u32,
) -> u64
    ensures { Tells result lines.new nodes.new listings.new (delete_of base_rule (tables lines.old nodes.old listings.old) handle) }
{
    number(map::delete(lines, nodes, listings, handle))
}

#[unsafe(no_mangle)]
pub extern "C" fn boundary_map_locate(
    lines: &[u16],
    nodes: &[u16],
    listings: &[u16],
    points: &[u16],
    answers: &mut [u32],
) -> u64
    ensures { Answers result answers.new (locate_of base_rule (tables lines.now nodes.now listings.now) points.now answers.old) }
{
    number(map::locate(lines, nodes, listings, points, answers))
}

#[unsafe(no_mangle)]
pub extern "C" fn boundary_map_window(
    lines: &[u16],
    nodes: &[u16],
    listings: &[u16],
    west: u16,
    south: u16,
    east: u16,
    north: u16,
    slots: &mut [u16],
) -> u64
    ensures { Lists result slots.new
        (window_of base_rule (tables lines.now nodes.now listings.now) (record { west = west; south = south; east = east; north = north }) slots.old) }
{
    let w = Window {
        west,
        south,
        east,
        north,
    };
    number(map::window(lines, nodes, listings, w, slots))
}

// what the header compares itself with: they are two files, and link at any two versions
#[unsafe(no_mangle)]
pub extern "C" fn boundary_map_version() -> u32
    ensures { result ≡ version }
{
    5000
}
