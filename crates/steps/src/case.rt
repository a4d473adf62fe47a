// A case: three tables, the calls on what is lent of them, and a line that tells each step.
use crate::numbers::{put, put_all, put_whether_any};
use crate::table::Table;
use definitions::{Given, Window};
use host::number;
use std::io;
use std::ops::Range;

// Each table is one entry or slot longer than may be lent.
#[derive(Clone, Copy, Drop)]
pub struct Case<R> {
    pub rt: R,
    pub lines: Table<8200>,
    pub nodes: Table<16385>,
    pub listings: Table<16385>,
}

impl<R: Print + Drop> Case<R> {
    // Every table 0, with so many entries lent.
    pub fn lent(
        rt: R,
        name: &[u8],
        lines: usize,
        nodes: usize,
        listings: usize,
    ) -> io::Result<Self> {
        rt.write_all(name)?;
        Ok(Case {
            rt,
            lines: Table::new(lines),
            nodes: Table::new(nodes),
            listings: Table::new(listings),
        })
    }

    // Four slots, and room for small trees.
    pub fn small(rt: R, name: &[u8]) -> io::Result<Self> {
        Case::lent(rt, name, 32, 200, 200)
    }

    // A line of its own for what follows, on the tables as they are.
    pub fn begin(&self, name: &[u8]) -> io::Result<()> {
        self.rt.write_all(name)
    }

    pub fn end(&self) -> io::Result<()> {
        println!(self.rt)
    }

    // Between two steps.
    pub fn bar(&self) -> io::Result<()> {
        self.rt.print(" |")
    }

    // Refusal and detail, which a call gives as one number.
    pub fn tell(&self, number: u64) -> io::Result<()> {
        put(&self.rt, number >> 32)?;
        put(&self.rt, number & 0xffff_ffff)
    }

    // A call that may write what is lent.
    fn call<F>(&mut self, call: F) -> io::Result<()>
    where
        F: FnOnce(&mut [u16], &mut [u16], &mut [u16]) -> u64,
        requires { F.IsAlwaysCallable call }
    {
        self.bar()?;
        let number = call(
            self.lines.lent_mut(),
            self.nodes.lent_mut(),
            self.listings.lent_mut(),
        );
        self.tell(number)
    }

    // A call that only reads it.
    // stays: beside `call`. One lends what it may write and the other what it may read, and no type stands for both.
    fn ask<F>(&self, ask: F) -> io::Result<()>
    where
        F: FnOnce(&[u16], &[u16], &[u16]) -> u64,
        requires { F.IsAlwaysCallable ask }
    {
        self.bar()?;
        let number = ask(self.lines.lent(), self.nodes.lent(), self.listings.lent());
        self.tell(number)
    }

    pub fn start(&mut self) -> io::Result<()> {
        self.call(|lines, nodes, listings| number(map::start(lines, nodes, listings)))
    }

    // A line by the x and y of end 1 and of end 2, and its labels.
    pub fn labelled(
        &mut self,
        [x1, y1, x2, y2]: [u16; 4],
        left: u16,
        right: u16,
    ) -> io::Result<()> {
        let line = Given {
            x1,
            y1,
            x2,
            y2,
            left,
            right,
        };
        self.call(|lines, nodes, listings| number(map::insert(lines, nodes, listings, line)))
    }

    pub fn add(&mut self, ends: [u16; 4]) -> io::Result<()> {
        self.labelled(ends, 0, 0)
    }

    pub fn remove(&mut self, handle: u32) -> io::Result<()> {
        self.call(|lines, nodes, listings| number(map::delete(lines, nodes, listings, handle)))
    }

    pub fn show(&self, x: u16, y: u16) -> io::Result<()> {
        self.bar()?;
        self.show_leaf(
            self.lines.lent(),
            self.nodes.lent(),
            self.listings.lent(),
            x,
            y,
        )
    }

    // The answer, the leaf's side and corner, how many lines it lists, and their slots, of any three tables.
    pub fn show_leaf(
        &self,
        lines: &[u16],
        nodes: &[u16],
        listings: &[u16],
        x: u16,
        y: u16,
    ) -> io::Result<()> {
        let shown = map::show_leaf(lines, nodes, listings, x, y);
        let slots = map::show_part(lines, nodes, listings, x, y);
        self.tell(number(shown.answer))?;
        put_all(&self.rt, &[shown.side, shown.west.0, shown.south.0])?;
        put(&self.rt, slots.len())?;
        put_all(&self.rt, slots)
    }

    // The answer list is told as the call leaves it.
    pub fn look(&self, points: &[u16], answers: &mut [u32]) -> io::Result<()> {
        self.ask(|lines, nodes, listings| {
            number(map::locate(lines, nodes, listings, points, answers))
        })?;
        put_all(&self.rt, answers)
    }

    // So is the slot list.
    pub fn view(&self, [west, south, east, north]: [u16; 4], slots: &mut [u16]) -> io::Result<()> {
        let window = Window {
            west,
            south,
            east,
            north,
        };
        self.ask(|lines, nodes, listings| {
            number(map::window(lines, nodes, listings, window, slots))
        })?;
        put_all(&self.rt, slots)
    }

    // Some entries, and whether all after them are 0.
    pub fn part(&self, entries: &[u16], some: Range<usize>) -> io::Result<()> {
        let (before, after) = entries.split_at(some.end.min(entries.len()));
        self.bar()?;
        put_all(&self.rt, &before[some.start.min(before.len())..])?;
        put_whether_any(&self.rt, after)
    }

    // The tree: so many nodes and listings.
    pub fn tree(&self, nodes: usize, listings: usize) -> io::Result<()> {
        self.part(&self.nodes.entries, 0..nodes)?;
        self.part(&self.listings.entries, 0..listings)
    }

    // Whether the three tables are all 0.
    pub fn cleared(&self) -> io::Result<()> {
        self.bar()?;
        put_whether_any(&self.rt, &self.lines.entries)?;
        put_whether_any(&self.rt, &self.nodes.entries)?;
        put_whether_any(&self.rt, &self.listings.entries)
    }
}
