// A table of a case: its entries, and how many of them are lent to a call. A number over all lends as many as there are.

#[derive(Clone, Copy)]
pub struct Table<const N: usize> {
    pub entries: [u16; N],
    pub lent: usize,
}

impl<const N: usize> Table<N> {
    // Every entry 0.
    pub(crate) fn new(lent: usize) -> Self {
        Table {
            entries: [0; N],
            lent,
        }
    }

    pub(crate) fn lent(&self) -> &[u16] {
        &self.entries[..self.lent.min(N)]
    }

    pub(crate) fn lent_mut(&mut self) -> &mut [u16] {
        &mut self.entries[..self.lent.min(N)]
    }
}
