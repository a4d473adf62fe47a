// The map is sound: what every call but start tests after the lengths.
#![tactic(auto)]

ghost use Rattle.std.specs.Prelude.{◌≡◌, true};
ghost use Rattle.definitions.specs.Tree.{base_rule};
ghost use Rattle.definitions.specs.Tables.{lengths_fit, sound};
ghost use Rattle.tables.specs.Lent.{tables, read};
ghost use Rattle.soundness.specs.Comparing.{Slotted, Comparing};
ghost use Rattle.soundness.specs.Checked.{checked};

use definitions::Refusal;
use leaves::conflicts_in_leaves;
use tables::{Lent, lengths_fit, same, slots_sound};
use tree::build;

// The tree of the live lines is built anew and compared; then the lines of each leaf are tried against each other.
fn built_same(t: Lent, built: &mut [u16], named: &mut [u16]) -> bool
    requires { Comparing t.lines.now t.nodes.now t.listings.now built.old named.old }
    ensures { result ≡ sound base_rule (read t.entry) }
{
    let Some(end) = build(t.lines, built, named) else {
        return false;
    };
    if !same(t.nodes, built) {
        return false;
    }
    if !same(t.listings, named) {
        return false;
    }
    !conflicts_in_leaves(t, end.node)
}

// Apart: what is refused before the arrays are needed takes no stack for them.
#[inline(never)]
fn trees_sound(t: Lent) -> bool
    requires { Slotted t.lines.now t.nodes.now t.listings.now }
    ensures { result ≡ sound base_rule (read t.entry) }
{
    // stays: two arrays, since there is no heap.
    let mut made_nodes = [0u16; 16384];
    let mut made_listings = [0u16; 16384];
    let n = t.nodes.len();
    let m = t.listings.len();
    built_same(t, &mut made_nodes[..n], &mut made_listings[..m])
}

pub fn is_sound(t: Lent) -> bool
    requires { lengths_fit (read t) ≡ true }
    ensures { result ≡ sound base_rule (read t.entry) }
{
    slots_sound(t.lines) && trees_sound(t)
}

// What every call but start asks of the lent tables first: refusal 1 or 2, or nothing.
// stays: three slices, as the calls are lent them; from here down they are one value.
// Apart: within locate it would cost its lookups some instructions.
#[inline(never)]
pub fn check(lines: &[u16], nodes: &[u16], listings: &[u16]) -> Result<(), Refusal>
    ensures { result ≡ checked base_rule (tables lines.entry.now nodes.now listings.now) }
{
    if !lengths_fit(lines, nodes, listings) {
        return Err(Refusal::Lengths);
    }
    let t = Lent {
        lines,
        nodes,
        listings,
    };
    if !is_sound(t) {
        return Err(Refusal::Damaged);
    }
    Ok(())
}
