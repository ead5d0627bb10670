//! Two threads that act on a partition each, to be timed by hand. Standard input has how many acts
//! each of them does, and how many of them work at once: 2, or 1 for one after the other. The
//! lengths of the two journals are printed.
#![tactic(auto)]

use crate::pace::pace;
use std::io;
use std::process::ExitCode;

mod pace;

fn main(rt: HostRuntime) -> io::Result<ExitCode> {
    let mut line = String::new(rt.alloc());
    rt.read_line(&mut line)?;
    let mut words = line.as_str().split_whitespace();
    let acts = words.next().and_then(|word| word.parse::<u32>().ok());
    let threads = words.next().and_then(|word| word.parse::<u32>().ok());
    let (Some(acts), Some(threads)) = (acts, threads) else {
        return Ok(ExitCode::FAILURE);
    };
    match pace(&rt, rt.alloc(), acts, threads == 2) {
        Ok((first, second)) => {
            println!(rt; "{first} {second}")?;
            Ok(ExitCode::SUCCESS)
        }
        Err(_) => Ok(ExitCode::FAILURE),
    }
}
