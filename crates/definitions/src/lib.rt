// The declared types that the definitions of specs/ and the calls speak of. No function stands here.
#![tactic(auto)]

// A grid number, 0 to 16,383.
#[derive(Clone, Copy)]
pub struct Grid(pub u16);

// A half-step number, 0 to 32,768: grid number g stands at half-step 2g + 1.
// stays: no order is derived. The definitions compare the numbers within, and so does the code that computes them.
#[derive(Clone, Copy, PartialEq, Eq)]
pub struct Half(pub u16);

#[derive(Clone, Copy, PartialEq, Eq)]
pub struct Point {
    pub x: Half,
    pub y: Half,
}

// A line as the caller of insert gives it: four coordinates and two labels, any 16-bit numbers.
#[derive(Clone, Copy)]
pub struct Given {
    pub x1: u16,
    pub y1: u16,
    pub x2: u16,
    pub y2: u16,
    pub left: u16,
    pub right: u16,
}

// A rectangle as the caller of window gives it: four coordinates, any 16-bit numbers.
#[derive(Clone, Copy)]
pub struct Window {
    pub west: u16,
    pub south: u16,
    pub east: u16,
    pub north: u16,
}

// How two lines conflict.
#[derive(Clone, Copy)]
pub enum Kind {
    Crossing,
    Touching,
    Overlap,
    Same,
}

// Why a call is refused.
// stays: the detail of a conflict is one number, kind and slot, as C reads it and as `insert_conflict` in history/Promised says it.
#[derive(Clone, Copy, PartialEq, Eq)]
pub enum Refusal {
    Lengths,
    Damaged,
    OffGrid,
    NoLength,
    Conflict(u32),
    NoSlot,
    NoRoom,
    UnknownHandle,
    BadWindow,
    ListShort,
}

// What a call answers: the detail of a call that is done, or the refusal.
pub type Answer = Result<u32, Refusal>;

// What show leaf tells: the leaf's side and south-west corner in half-steps, all 0 on refusal.
// stays: the three numbers beside the answer. `not_shown` says that a refusal tells them as 0.
#[derive(Clone, Copy)]
pub struct Shown {
    pub answer: Answer,
    pub side: u16,
    pub west: Half,
    pub south: Half,
}
