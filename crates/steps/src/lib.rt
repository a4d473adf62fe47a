// What the programs of cases share: the tables of a case, a call on them for each step, and its numbers printed.
// A line for each case: its name, then after each bar one step. A start, an insert or a delete: refusal and detail.
// A lookup: the same, then the answers. A leaf: the same, its side, west and south, how many lines it lists, and their
// slots. Entries of a table: as many as the case is about, then 0 if all after them are 0.
// A write that fails gives its error, and no step follows it: a case cut short must not end like a whole one.
#![tactic(auto)]

pub mod case;
pub mod numbers;
pub mod table;
