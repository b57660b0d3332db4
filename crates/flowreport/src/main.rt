// Reads what the core hears from standard input, and prints reports and refusals.
#![tactic(auto)]

mod flow;
mod input;
mod piece;
mod step;
mod text;

use flow::Flow;
use input::Input;
use std::io;

fn main(rt: HostRuntime) -> io::Result<()> {
    let mut input = Input::new(rt.alloc())?;
    let mut flow = Flow::new();
    // So many turns stand for no end.
    for _ in 0..u64::MAX {
        if !input.turn(&rt, &mut flow)? {
            break;
        }
    }
    Ok(())
}
