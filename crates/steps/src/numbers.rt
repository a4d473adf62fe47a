// The numbers of a case, each after a space.
use std::fmt::Display;
use std::io;

pub fn put(rt: &impl Print, value: impl Display + Drop) -> io::Result<()> {
    print!(rt; " {value}")
}

pub fn put_all(rt: &impl Print, values: &[impl Display]) -> io::Result<()> {
    for value in values {
        put(rt, value)?;
    }
    Ok(())
}

// 1 if one of them is not 0, else 0.
pub fn put_whether_any(rt: &impl Print, entries: &[u16]) -> io::Result<()> {
    put(rt, u8::from(entries.iter().any(|&entry| entry != 0)))
}
