// Replays the oracle's list from standard input by the calls of `letchwater`: every case byte by byte against the
// oracle's answer, and transforms by themselves stored back.
#![tactic(auto)]

mod calls;
mod case;
mod comparison;
mod entries;
mod failure;
mod list;
mod parts;
mod reports;
mod retouches;
mod sizes;
mod stored;
mod tally;
mod transforms;

use case::KINDS;
use failure::Failure;
use list::{Buffers, replay_next};
use std::io;
use std::io::BufRead;
use tally::Tally;

// A proved loop has to end, and nothing says that an input does: the turns are counted, up to a number that no run
// reaches.
fn replay_all(list: &mut impl BufRead, tallies: &mut [Tally; KINDS.len()]) -> Result<(), Failure> {
    let mut buffers = Buffers::new();
    for _ in 0..u64::MAX {
        let Some((kind, found)) = replay_next(list, &mut buffers)? else {
            break;
        };
        tallies[kind as usize].add(found);
    }
    Ok(())
}

fn main(rt: HostRuntime) -> io::Result<()> {
    let mut tallies = KINDS.map(Tally::new);
    let mut list = rt.reader();
    match replay_all(&mut list, &mut tallies) {
        Ok(()) => {}
        Err(Failure::Malformed) => println!(rt; "malformed case")?,
        Err(Failure::Io(error)) => return Err(error),
    }
    for tally in tallies {
        print!(rt; "{tally}")?;
    }
    Ok(())
}
