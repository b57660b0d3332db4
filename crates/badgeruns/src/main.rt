// Runs badge tables over long pseudo-random arrivals, and compares every answer with a plain list of
// all arrivals.
#![tactic(auto)]

mod tried;

use badgetable::table::BadgeTable;
use cells::cell::Cell;
use keys::badge::Badge;
use keys::reader::Reader;
use std::io;
use trials::trial::run;
use tried::Tried;

// How many arrivals each table is run over.
const ARRIVALS: usize = 300;

// Runs an empty table over many arrivals, and prints how many answers were wrong.
fn compare(rt: &HostRuntime, name: &str, table: BadgeTable<Reader, Badge>) -> io::Result<()> {
    let outcome = run(&mut Tried { table }, 11, ARRIVALS, rt.alloc())?;
    println!(rt; "{name}: {outcome}")
}

// A table in areas of K rows and of J cells for each.
fn badges(
    rt: &HostRuntime,
    name: &str,
    rows: &mut [Cell<u16, u32>],
    cells: &mut [Cell<Badge, ()>],
    j: usize,
) -> io::Result<()> {
    let k = rows.len();
    let mut table = BadgeTable::<Reader, Badge>::over(rows, cells);
    let _ = table.open(k, j);
    compare(rt, name, table)
}

// Tables of badges by reader: one row of one cell, three rows of two, and room for all.
fn main(rt: HostRuntime) -> io::Result<()> {
    badges(
        &rt,
        "badges in 1 row of 1",
        &mut [None; 1],
        &mut [None; 1],
        1,
    )?;
    badges(
        &rt,
        "badges in 3 rows of 2",
        &mut [None; 3],
        &mut [None; 6],
        2,
    )?;
    badges(
        &rt,
        "badges in 6 rows of 4",
        &mut [None; 6],
        &mut [None; 24],
        4,
    )
}
