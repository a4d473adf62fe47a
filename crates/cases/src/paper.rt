// The paper's own cases, P1 to P11 and the one that is only run.
use std::io;
use steps::case::Case;

fn p1(rt: &impl Print) -> io::Result<()> {
    let mut case = Case::lent(rt, b"P1 fresh map", 32, 1, 0)?;
    case.start()?;
    case.show(0, 0)?;
    case.part(&case.nodes.entries, 0..1)?;
    case.end()
}

fn p2(rt: &impl Print) -> io::Result<()> {
    let mut case = Case::lent(rt, b"P2 from corner to corner", 32, 16384, 16384)?;
    case.add([0, 0, 16383, 16383])?;
    case.tree(5, 4)?;
    case.end()
}

fn p3(rt: &impl Print) -> io::Result<()> {
    let mut case = Case::lent(rt, b"P3 along the south", 32, 16384, 16384)?;
    case.add([0, 0, 16383, 0])?;
    case.tree(5, 2)?;
    case.end()
}

fn p4(rt: &impl Print) -> io::Result<()> {
    let mut case = Case::lent(rt, b"P4 57 nodes and 2 listings", 32, 57, 2)?;
    case.add([0, 0, 0, 1])?;
    case.part(&case.nodes.entries, 36..44)?;
    case.part(&case.listings.entries, 0..2)?;
    case.end()
}

fn p5(rt: &impl Print, name: &[u8], nodes: usize, listings: usize) -> io::Result<()> {
    let mut case = Case::lent(rt, name, 32, nodes, listings)?;
    case.add([0, 0, 0, 1])?;
    case.cleared()?;
    case.end()
}

// A level line, and then another.
fn after_a_level_line(rt: &impl Print, name: &[u8], line: [u16; 4]) -> io::Result<()> {
    let mut case = Case::small(rt, name)?;
    case.add([0, 0, 10, 0])?;
    case.add(line)?;
    case.end()
}

fn p6(rt: &impl Print) -> io::Result<()> {
    after_a_level_line(rt, b"P6 an end within a line", [5, 0, 5, 5])?;
    after_a_level_line(rt, b"P6 reversed", [10, 0, 0, 0])
}

fn p7(rt: &impl Print) -> io::Result<()> {
    after_a_level_line(rt, b"P7 upright from an end", [10, 0, 10, 5])?;
    after_a_level_line(rt, b"P7 straight on from an end", [10, 0, 20, 0])
}

fn p8(rt: &impl Print) -> io::Result<()> {
    let mut case = Case::lent(rt, b"P8 one slot", 8, 200, 200)?;
    case.add([0, 0, 10, 0])?;
    case.remove(1)?;
    case.add([0, 0, 10, 0])?;
    case.remove(1)?;
    case.end()
}

fn p9(rt: &impl Print) -> io::Result<()> {
    let mut case = Case::lent(rt, b"P9 the last generation", 8, 200, 200)?;
    case.lines.entries[1] = 65534;
    case.add([0, 0, 10, 0])?;
    case.remove(65535)?;
    case.add([0, 0, 10, 0])?;
    case.end()
}

fn p10(rt: &impl Print) -> io::Result<()> {
    let mut case = Case::small(rt, b"P10 a level line")?;
    case.labelled([0, 8000, 16383, 8000], 7, 9)?;
    case.look(
        &[5, 9000, 5, 8000, 5, 7999, 16384, 0, 16383, 9000],
        &mut [0; 5],
    )?;
    case.end()
}

fn p11(rt: &impl Print) -> io::Result<()> {
    let mut case = Case::small(rt, b"P11 a shared west end")?;
    case.labelled([0, 0, 10, 0], 1, 0)?;
    case.labelled([0, 0, 10, 10], 2, 0)?;
    case.look(&[0, 5], &mut [0])?;
    case.end()
}

// The leaf at the south-west corner with the third line, whose ends divide the block of side 16, and without it.
fn run_only(rt: &impl Print) -> io::Result<()> {
    let mut case = Case::small(rt, b"run only")?;
    case.add([0, 0, 8, 8])?;
    case.add([0, 0, 8, 7])?;
    case.add([4, 7, 5, 7])?;
    case.show(0, 0)?;
    case.remove(131073)?;
    case.show(0, 0)?;
    case.end()
}

pub fn all(rt: &impl Print) -> io::Result<()> {
    p1(rt)?;
    p2(rt)?;
    p3(rt)?;
    p4(rt)?;
    p5(rt, b"P5 56 nodes", 56, 2)?;
    p5(rt, b"P5 1 listing", 57, 1)?;
    p6(rt)?;
    p7(rt)?;
    p8(rt)?;
    p9(rt)?;
    p10(rt)?;
    p11(rt)?;
    run_only(rt)
}
