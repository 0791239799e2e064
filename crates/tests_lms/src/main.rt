//! Signatures that Bouncy Castle 1.72 made, a line of standard input each: whether they pass, and whether what was changed in any way is refused. It prints a line
//! for each, and how many signatures by rising indexes pass. A line is `lms TYPE OTSTYPE I SEED LEAF TEXT PUBLICKEY SIGNATURE` or `hss LEVELS I SEED INDEX TEXT PUBLICKEY SIGNATURE`, of trees of height 5, the first with chains of eight bits and the others of four; bytes in hexadecimal, none as `-`.
#![tactic(auto)]

mod changes;
#[cfg(test)]
mod growing;
#[cfg(test)]
mod kept;
#[cfg(test)]
mod parts;
mod rising;
#[cfg(test)]
mod texts;
mod vectors;

use crate::changes::{Count, count_refused};
use crate::rising::count_rising;
use crate::vectors::Vector;
use anyhow::Error;
use std::io::{BufRead, BufReader};

// more than the trees of the two last levels have together
const INDEXES: u64 = 1100;

fn main(rt: HostRuntime) -> Result<(), Error> {
    let alloc = rt.alloc();
    let mut other = Vec::new(alloc);
    for line in BufReader::new(alloc, rt.reader())?.lines(alloc) {
        let line = line?;
        let vector = Vector::read(alloc, line.as_str())?;
        let passes = vector
            .kind
            .verify(&vector.public_key, &vector.text, &vector.signature);
        let made = vector.is_made(alloc)?;
        let Count { changed, refused } = count_refused(alloc, &vector, &other)?;
        println!(rt;
            "{}: passes {passes}, made {made}, refused {refused} of {changed} that were changed",
            vector.name
        )?;
        other = vector.public_key;
    }
    println!(rt;
        "rising indexes: {} of {INDEXES} signatures pass",
        count_rising(alloc, INDEXES)?
    )?;
    Ok(())
}
