// Lists the sectors of the image on standard input. All but reading and writing is `listing::list`.
#![tactic(auto)]

use printing::input::answer_input;
use std::io;

#[tactic(auto, using(printing::proofs::Fits::fits))]
fn main(rt: HostRuntime) -> io::Result<()> {
    // room for every text
    answer_input(&rt, &mut [0u8; 311296], listing::list)
}
