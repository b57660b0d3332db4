// One area of cells, cut into parts of k cells each: a part is lent to the functions over cells. The
// area, k and the part's number are handed over one by one: a struct of them would borrow the area, and
// what it holds afterwards would be known less plainly.
#![tactic(auto)]

pub mod part;
