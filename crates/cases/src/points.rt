// Lookups worked out by hand.
use std::io;
use steps::case::Case;

// Nothing is asked, nothing is answered.
fn no_points(rt: &impl Print) -> io::Result<()> {
    let case = Case::small(rt, b"no points")?;
    case.look(&[], &mut [])?;
    case.end()
}

// Over it, on its north end, on it, west and east of it: it is met, but never counts as below.
fn upright(rt: &impl Print) -> io::Result<()> {
    let mut case = Case::small(rt, b"upright lines never count")?;
    case.labelled([5, 0, 5, 10], 3, 4)?;
    case.look(&[5, 11, 5, 10, 5, 5, 4, 5, 6, 5], &mut [0; 5])?;
    case.end()
}

// Above it for x of 9, 10, 19 and 20; below it; on its two ends, which are both part of it.
fn ends(rt: &impl Print) -> io::Result<()> {
    let mut case = Case::small(rt, b"west end in, east end out")?;
    case.labelled([10, 10, 20, 10], 3, 4)?;
    case.look(
        &[9, 11, 10, 11, 19, 11, 20, 11, 15, 9, 10, 10, 20, 10],
        &mut [0; 7],
    )?;
    case.end()
}

// End 1 is the east one: the upper side is the right one, and the east end is still left off.
fn westward(rt: &impl Print) -> io::Result<()> {
    let mut case = Case::small(rt, b"drawn westward")?;
    case.labelled([20, 10, 10, 10], 3, 4)?;
    case.look(&[10, 11, 20, 11], &mut [0; 2])?;
    case.end()
}

// Over the shared end only the eastern line counts.
fn end_to_end(rt: &impl Print) -> io::Result<()> {
    let mut case = Case::small(rt, b"end to end")?;
    case.labelled([0, 10, 10, 10], 1, 0)?;
    case.labelled([10, 10, 20, 10], 2, 0)?;
    case.look(&[9, 11, 10, 11, 20, 11], &mut [0; 3])?;
    case.end()
}

// A short line far north; past its east end, beside it and under it the line along the south answers, and over that
// one's own east end none.
fn far_south(rt: &impl Print) -> io::Result<()> {
    let mut case = Case::small(rt, b"several leaves south")?;
    case.labelled([0, 0, 16383, 0], 6, 0)?;
    case.labelled([16000, 16000, 16001, 16001], 8, 0)?;
    case.look(
        &[
            16000, 16002, 16001, 16002, 15999, 16383, 16383, 16383, 16000, 15999,
        ],
        &mut [0; 5],
    )?;
    case.end()
}

// The shared end is on both: slot 0. Then a point of each alone.
fn on_two(rt: &impl Print) -> io::Result<()> {
    let mut case = Case::small(rt, b"on two lines")?;
    case.labelled([0, 0, 10, 0], 1, 2)?;
    case.labelled([10, 0, 10, 5], 3, 4)?;
    case.look(&[10, 0, 10, 3, 5, 0], &mut [0; 3])?;
    case.end()
}

// Both fall from (0,10), by 1 and by 1/2: over x = 0 they are equally high, and the second rises more. At x = 5 they
// stand at 5 and 7.5.
fn falling(rt: &impl Print) -> io::Result<()> {
    let mut case = Case::small(rt, b"the less steeply falling")?;
    case.labelled([0, 10, 10, 0], 1, 0)?;
    case.labelled([0, 10, 10, 5], 2, 0)?;
    case.look(&[0, 11, 5, 11, 5, 6, 5, 4], &mut [0; 4])?;
    case.end()
}

// Falling, rising and level from (0,10): over x = 0 the rising one. At x = 5 they stand at 5, 15 and 10.
fn west_fan(rt: &impl Print) -> io::Result<()> {
    let mut case = Case::small(rt, b"a fan at the west end")?;
    case.labelled([0, 10, 10, 0], 3, 0)?;
    case.labelled([0, 10, 10, 20], 1, 0)?;
    case.labelled([0, 10, 10, 10], 2, 0)?;
    case.look(&[0, 11, 5, 14, 5, 9, 5, 4, 5, 16], &mut [0; 5])?;
    case.end()
}

// Level at 10, 20 and 5: neither the first slot nor the last decides.
fn highest(rt: &impl Print) -> io::Result<()> {
    let mut case = Case::small(rt, b"the highest of three")?;
    case.labelled([0, 10, 20, 10], 1, 0)?;
    case.labelled([0, 20, 20, 20], 2, 0)?;
    case.labelled([0, 5, 20, 5], 3, 0)?;
    case.look(&[3, 30, 3, 15, 3, 7, 3, 4], &mut [0; 4])?;
    case.end()
}

// One below 65,536, which would say: on slot 0.
fn largest_label(rt: &impl Print) -> io::Result<()> {
    let mut case = Case::small(rt, b"the largest label")?;
    case.labelled([0, 0, 16383, 0], 65535, 0)?;
    case.look(&[5, 5], &mut [0])?;
    case.end()
}

pub fn all(rt: &impl Print) -> io::Result<()> {
    no_points(rt)?;
    upright(rt)?;
    ends(rt)?;
    westward(rt)?;
    end_to_end(rt)?;
    far_south(rt)?;
    on_two(rt)?;
    falling(rt)?;
    west_fan(rt)?;
    highest(rt)?;
    largest_label(rt)
}
