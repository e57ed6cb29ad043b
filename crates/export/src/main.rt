// Prints the flat file of the image on standard input. All but reading and writing is `converting::export`.
#![tactic(auto)]

use printing::input::answer_input;
use std::io;

#[tactic(auto, using(printing::proofs::Fits::fits))]
fn main(rt: HostRuntime) -> io::Result<()> {
    answer_input(&rt, &mut [0u8; 65536], converting::export)
}
