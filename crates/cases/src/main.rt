// The paper's cases, and small trees, lookups and windows worked out by hand, run on the proved library.
#![tactic(auto)]

mod above;
mod paper;
mod points;
mod trees;
mod windows;

use std::io;

fn main(rt: HostRuntime) -> io::Result<()> {
    paper::all(&rt)?;
    trees::all(&rt)?;
    points::all(&rt)?;
    above::all(&rt)?;
    windows::all(&rt)
}
