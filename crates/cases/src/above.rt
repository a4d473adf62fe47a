// Lookups with no line below the point, worked out by hand.
use std::io;
use steps::case::Case;

// South of P10's line: near it, far from it, at its west end and a step before its east end; under the east end it does not count.
fn last_line(rt: &impl Print) -> io::Result<()> {
    let mut case = Case::small(rt, b"south of the last line")?;
    case.labelled([0, 8000, 16383, 8000], 7, 9)?;
    case.look(
        &[5, 7999, 5, 0, 0, 7999, 16382, 0, 16383, 7999],
        &mut [0; 5],
    )?;
    case.end()
}

// End 1 is the east one: the lower side is the left one.
fn westward(rt: &impl Print) -> io::Result<()> {
    let mut case = Case::small(rt, b"above, drawn westward")?;
    case.labelled([20, 10, 10, 10], 3, 4)?;
    case.look(&[10, 9, 20, 9, 9, 9], &mut [0; 3])?;
    case.end()
}

// Level, rising and falling from (10,50): over x = 10 they are equally high, and the falling one rises least. At x = 50 they stand
// at 50, 60 and 35.
fn west_fan(rt: &impl Print) -> io::Result<()> {
    let mut case = Case::small(rt, b"under a fan at the west end")?;
    case.labelled([10, 50, 90, 50], 1, 2)?;
    case.labelled([10, 50, 90, 70], 3, 4)?;
    case.labelled([90, 20, 10, 50], 5, 6)?;
    case.look(&[10, 49, 10, 0, 50, 34, 50, 36, 10, 51], &mut [0; 5])?;
    case.end()
}

// Level at 20, 5 and 10: neither the first slot nor the last decides. Beside them there is nothing.
fn lowest(rt: &impl Print) -> io::Result<()> {
    let mut case = Case::small(rt, b"the lowest of three")?;
    case.labelled([0, 20, 20, 20], 1, 11)?;
    case.labelled([0, 5, 20, 5], 2, 12)?;
    case.labelled([0, 10, 20, 10], 3, 13)?;
    case.look(&[3, 4, 0, 0, 3, 6, 20, 4, 21, 4], &mut [0; 5])?;
    case.end()
}

// A line below answers, with label 0 too; an upright line over the point does not.
fn below_first(rt: &impl Print) -> io::Result<()> {
    let mut case = Case::small(rt, b"a line below comes first")?;
    case.labelled([0, 10, 40, 10], 0, 5)?;
    case.labelled([0, 30, 40, 30], 6, 9)?;
    case.labelled([41, 30, 41, 40], 7, 8)?;
    case.look(&[20, 20, 20, 9, 41, 20], &mut [0; 3])?;
    case.end()
}

// A short line far south; past its east end, beside it and over it the line along the north answers, and under that one's own east
// end none.
fn far_north(rt: &impl Print) -> io::Result<()> {
    let mut case = Case::small(rt, b"several leaves north")?;
    case.labelled([0, 16383, 16383, 16383], 0, 6)?;
    case.labelled([383, 383, 384, 382], 0, 8)?;
    case.look(
        &[383, 381, 384, 381, 382, 0, 16383, 0, 383, 384],
        &mut [0; 5],
    )?;
    case.end()
}

pub fn all(rt: &impl Print) -> io::Result<()> {
    last_line(rt)?;
    westward(rt)?;
    west_fan(rt)?;
    lowest(rt)?;
    below_first(rt)?;
    far_north(rt)
}
