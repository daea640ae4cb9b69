// Runs the requests of standard input over a new store of 32 places with threshold 4, and writes the answers to standard output.
#![tactic(auto)]

fn main(rt: HostRuntime) {
    survey_program::survey(&rt);
}
