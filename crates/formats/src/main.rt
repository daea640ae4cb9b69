// The examples of docs/FORMATS.md, built by the functions that the store is made of and written out, a line each.
#![tactic(auto)]

mod examples;
mod lines;

fn main(rt: HostRuntime) {
    let out = rt.stdout();
    lines::key(out);
    lines::entries(out);
    lines::table(out);
    lines::memory(out);
}
