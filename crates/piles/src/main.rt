// Runs tallies and piles of layers over long pseudo-random arrivals, and compares every answer with
// a plain list of all arrivals.
#![tactic(auto)]

mod pile;

use counttable::table::CountTable;
use exactlog::log::ExactLog;
use keys::reader::Reader;
use layers::trim::Trim;
use layers::watch::Watch;
use panering::ring::PaneRing;
use pile::compare;
use std::io;
use tally::Tally;

fn tables(rt: &HostRuntime, watched: Reader) -> io::Result<()> {
    let mut area = [None; 3];
    let mut table = CountTable::<Reader>::over(&mut area);
    let _ = table.open(3);
    compare(rt, "table", &mut table)?;
    let mut trimmed = Trim::over(table);
    compare(rt, "trim over table", &mut trimmed)?;
    let mut watch = Watch::over(trimmed, watched);
    compare(rt, "watch over trim over table", &mut watch)
}

fn rings(rt: &HostRuntime, watched: Reader) -> io::Result<()> {
    let mut area = [None; 8];
    let mut ring = PaneRing::<Reader>::over(&mut area);
    let _ = ring.open(5, 3, 2);
    compare(rt, "ring", &mut ring)?;
    let mut trimmed = Trim::over(ring);
    compare(rt, "trim over ring", &mut trimmed)?;
    let mut watch = Watch::over(trimmed, watched);
    compare(rt, "watch over trim over ring", &mut watch)?;
    let mut pile = Trim::over(watch);
    compare(rt, "trim over watch over trim over ring", &mut pile)
}

fn logs(rt: &HostRuntime, watched: Reader) -> io::Result<()> {
    let mut area = [0u16; 7];
    let mut log = ExactLog::<Reader>::over(&mut area);
    let _ = log.open(7);
    compare(rt, "log", &mut log)?;
    let mut watch = Watch::over(log, watched);
    compare(rt, "watch over log", &mut watch)?;
    let mut pile = Trim::over(watch);
    compare(rt, "trim over watch over log", &mut pile)
}

// The range of the one reader that came three times to a ring of one pane of two, bare and trimmed.
fn edge(rt: &HostRuntime, reader: Reader) -> io::Result<()> {
    let mut area = [None; 2];
    let mut ring = PaneRing::<Reader>::over(&mut area);
    let _ = ring.open(2, 1, 1);
    let _ = ring.note(reader);
    let _ = ring.note(reader);
    let (low, high) = ring.range(reader);
    println!(rt; "ring after two: {low} to {high}")?;
    let _ = ring.note(reader);
    let (low, high) = ring.range(reader);
    println!(rt; "ring after three: {low} to {high}")?;
    let trimmed = Trim::over(ring);
    let (low, high) = trimmed.range(reader);
    println!(rt; "trim over ring after three: {low} to {high}")
}

fn main(rt: HostRuntime) -> io::Result<()> {
    let Ok(watched) = Reader::try_from(2) else {
        return Ok(());
    };
    edge(&rt, watched)?;
    tables(&rt, watched)?;
    rings(&rt, watched)?;
    logs(&rt, watched)
}
