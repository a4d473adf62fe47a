// Windows worked out by hand.
use std::io;
use steps::case::Case;

// Slot 0 rises by 1 over 2, slot 1 is freed again, slot 2 is upright, slot 3 is drawn westward.
fn drawn<R: Print + Drop>(rt: R, name: &[u8]) -> io::Result<Case<R>> {
    let mut case = Case::small(rt, name)?;
    case.add([4000, 4000, 12000, 8000])?;
    case.add([0, 16000, 16000, 16000])?;
    case.add([8000, 9000, 8000, 12000])?;
    case.add([16383, 2000, 0, 1000])?;
    case.remove(65537)?;
    Ok(case)
}

// Each window with a list of two, both 9.
fn seen(case: &Case<impl Print + Drop>, windows: &[[u16; 4]]) -> io::Result<()> {
    for &window in windows {
        case.view(window, &mut [9; 2])?;
    }
    Ok(())
}

// A list of the exact length, and a longer one, whose later entries stay; where no line is, none will do.
fn whole_map(rt: &impl Print) -> io::Result<()> {
    let case = drawn(rt, b"the whole map in a window")?;
    case.view([0, 0, 16383, 16383], &mut [9; 3])?;
    case.view([0, 0, 16383, 16383], &mut [9; 5])?;
    case.view([0, 16000, 16000, 16000], &mut [])?;
    case.end()
}

// At an end of slot 2, and one step off each way; on slot 0 between its ends, which passes the rectangle's other corners by.
fn corners(rt: &impl Print) -> io::Result<()> {
    let case = drawn(rt, b"a corner of the window on a line")?;
    let windows = [
        [8000, 12000, 9000, 13000],
        [8001, 12000, 9000, 13000],
        [8000, 12001, 9000, 13000],
        [8000, 5000, 9000, 6000],
        [8001, 5000, 9000, 6000],
        [7000, 6000, 8000, 7000],
        [7000, 6000, 7999, 7000],
    ];
    seen(&case, &windows)?;
    case.end()
}

// South, north, west and east.
fn sides(rt: &impl Print) -> io::Result<()> {
    let case = drawn(rt, b"an end on a side of the window")?;
    let windows = [
        [7000, 12000, 9000, 13000],
        [7000, 8500, 9000, 9000],
        [12000, 7000, 13000, 9000],
        [3000, 3500, 4000, 4500],
    ];
    seen(&case, &windows)?;
    case.end()
}

// On slot 2 and beside it, on slot 0 and above it, at an end; then a level segment, and one along slot 2, short of it.
fn points(rt: &impl Print) -> io::Result<()> {
    let case = drawn(rt, b"one point and one segment")?;
    let windows = [
        [8000, 10000, 8000, 10000],
        [8001, 10000, 8001, 10000],
        [8000, 6000, 8000, 6000],
        [8000, 6001, 8000, 6001],
        [12000, 8000, 12000, 8000],
        [0, 10000, 16383, 10000],
        [8000, 6001, 8000, 8999],
    ];
    seen(&case, &windows)?;
    case.end()
}

// Slot 3 passes the south-east and the north-west corner by less than half a step; and a step on.
fn near(rt: &impl Print) -> io::Result<()> {
    let case = drawn(rt, b"a corner of the window beside a line")?;
    let windows = [
        [0, 1001, 16, 1500],
        [0, 1001, 17, 1500],
        [33, 900, 100, 1002],
        [32, 900, 100, 1002],
    ];
    seen(&case, &windows)?;
    case.end()
}

pub fn all(rt: &impl Print) -> io::Result<()> {
    whole_map(rt)?;
    corners(rt)?;
    sides(rt)?;
    points(rt)?;
    near(rt)
}
