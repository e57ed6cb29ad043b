// Runs cases of creating, committing and rolling back through the compiled library, and prints what they give, a line each. The
// file stdout has what they should give, as document 01 lays it out. Check 31 has no case: it asks for a buffer above 4 GiB.
#![tactic(auto)]

use std::io;

mod script; // cases as steps
mod calls; // steps that create, commit and roll back
mod asks; // steps that read
mod worked_disc; // P1 to P8
mod buffers; // buffers that are full, and short ones
mod order; // each call's order of checks
mod takes; // commits and rollbacks, forth and back
mod sharing; // equal sectors, shifts and sector sizes
mod strange; // images that no call here writes
mod second; // a table of the second kind
mod damage; // two blocks, one of them damaged

// All 64 bits one: the largest number of 8 bytes.
const ONES: u64 = u64::MAX;

fn main(rt: HostRuntime) -> io::Result<()> {
    for scripts in [
        worked_disc::SCRIPTS,
        buffers::SCRIPTS,
        order::SCRIPTS,
        takes::SCRIPTS,
        sharing::SCRIPTS,
        strange::SCRIPTS,
        damage::SCRIPTS,
        second::SCRIPTS,
    ] {
        for steps in scripts {
            script::run(&rt, steps)?;
        }
    }
    Ok(())
}
