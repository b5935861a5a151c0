// Answers the query lines of standard input on net.trn and labels.tlb.
#![tactic(auto)]

use replies::program::run;

// The descriptors of standard input and standard output.
const STANDARD_INPUT: i32 = 0;

const STANDARD_OUTPUT: i32 = 1;

fn main(rt: HostRuntime) {
    run(
        &rt,
        b"net.trn",
        b"labels.tlb",
        STANDARD_INPUT,
        STANDARD_OUTPUT,
    );
}
