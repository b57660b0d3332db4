// Cells that count keys by the three rules of a count table, over any slice of them: a whole table,
// or a part of a larger area. A level is handed over beside the cells, since that of a part is kept
// elsewhere. Definitions and laws are of any sameness and any reading of records, not of a kind of key
// alone, so contracts name both.
#![tactic(auto)]

pub mod cell;
pub mod each;
pub mod find;
pub mod note;
pub mod rule;
