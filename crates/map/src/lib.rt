// The public calls: start, insert, delete, locate, show leaf and window. None has a requires.
// stays: three slices in each call, as C lends them and as host/proofs/Promised states each call.
#![tactic(auto)]

ghost use Rattle.std.specs.Prelude.{◌≡◌};
ghost use Rattle.definitions.specs.Tree.{base_rule};
ghost use Rattle.definitions.specs.Calls.{start_of, insert_of, delete_of};
ghost use Rattle.definitions.specs.Lookup.{locate_of, show_of};
ghost use Rattle.definitions.specs.Window.{window_of};
ghost use Rattle.tables.specs.Lent.{tables, Replies, Locates, Windows};
ghost use Rattle.map.specs.Promise.{HandsBack};

use changes::{insert_sound, take_line};
use definitions::{Answer, Given, Half, Refusal, Shown, Window};
use lookup::answer_all;
use showing::leaf_asked;
use soundness::check;
use tables::{clear, known, lengths_fit, slot_of};
use window::{list_window, window_fits};

pub fn start(lines: &mut [u16], nodes: &mut [u16], listings: &mut [u16]) -> Answer
    ensures { Replies result lines.new nodes.new listings.new (start_of (tables lines.old nodes.old listings.old)) }
{
    if !lengths_fit(lines, nodes, listings) {
        return Err(Refusal::Lengths);
    }
    clear(lines);
    clear(nodes);
    clear(listings);
    Ok(0)
}

pub fn insert(lines: &mut [u16], nodes: &mut [u16], listings: &mut [u16], g: Given) -> Answer
    ensures { Replies result lines.new nodes.new listings.new (insert_of base_rule (tables lines.old nodes.old listings.old) g) }
{
    check(lines, nodes, listings)?;
    insert_sound(lines, nodes, listings, g)
}

pub fn delete(lines: &mut [u16], nodes: &mut [u16], listings: &mut [u16], handle: u32) -> Answer
    ensures { Replies result lines.new nodes.new listings.new (delete_of base_rule (tables lines.old nodes.old listings.old) handle) }
{
    check(lines, nodes, listings)?;
    if !known(lines, handle) {
        return Err(Refusal::UnknownHandle);
    }
    take_line(lines, nodes, listings, slot_of(handle));
    Ok(0)
}

// An exit of its own for a damaged map would be proved by this law: so the edit that nods there is refused for its answer alone.
#[tactic(auto, using(crate::proofs::Locates::told_damaged))]
pub fn locate(
    lines: &[u16],
    nodes: &[u16],
    listings: &[u16],
    points: &[u16],
    answers: &mut [u32],
) -> Answer
    ensures { Locates result answers.new (locate_of base_rule (tables lines.now nodes.now listings.now) points.now answers.old) }
{
    if points.len() % 2 != 0 {
        return Err(Refusal::Lengths);
    }
    if points.len() / 2 != answers.len() {
        return Err(Refusal::Lengths);
    }
    check(lines, nodes, listings)?;
    answer_all(lines, nodes, listings, points, answers);
    Ok(0)
}

// Show leaf: the numbers.
pub fn show_leaf(lines: &[u16], nodes: &[u16], listings: &[u16], x: u16, y: u16) -> Shown
    ensures { result ≡ (show_of base_rule (tables lines.now nodes.now listings.now) x y).told }
{
    match leaf_asked(lines, nodes, listings, x, y) {
        Err(refusal) => Shown {
            answer: Err(refusal),
            side: 0,
            west: Half(0),
            south: Half(0),
        },
        Ok(leaf) => Shown {
            answer: Ok(0),
            side: leaf.side,
            west: leaf.west,
            south: leaf.south,
        },
    }
}

// Show leaf: the part of the caller's own listing table.
pub fn show_part<'a>(lines: &[u16], nodes: &[u16], listings: &'a [u16], x: u16, y: u16) -> &'a [u16]
    ensures { HandsBack result listings.entry (show_of base_rule (tables lines.now nodes.now listings.now) x y) }
{
    let Ok(leaf) = leaf_asked(lines, nodes, listings, x, y) else {
        return &listings[0..0];
    };
    let first = leaf.first;
    let end = first + leaf.count;
    &listings[first..end]
}

pub fn window(
    lines: &[u16],
    nodes: &[u16],
    listings: &[u16],
    w: Window,
    slots: &mut [u16],
) -> Answer
    ensures { Windows result slots.new (window_of base_rule (tables lines.now nodes.now listings.now) w slots.old) }
{
    check(lines, nodes, listings)?;
    if !window_fits(w) {
        return Err(Refusal::BadWindow);
    }
    list_window(lines, w, slots)
}
