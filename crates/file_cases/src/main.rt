#![tactic(auto)]
// Prints what `inspect` prints for each file of data/ that an argument names, after the file's name.
use streams::arguments;
use streams::input::open;
use streams::output::say;

// Room for a path.
const PATH: usize = 4096;

fn show(rt: HostRuntime, i: usize) {
    let mut path = [0u8; PATH];
    let n = arguments::get(rt, i, &mut path).unwrap_or(0);
    let name = &path[..n];
    let Some(mut file) = open(rt, name) else {
        return;
    };
    say(rt, name);
    say(rt, b": ");
    print::inspect(rt, &mut file, name);
}

fn main(rt: HostRuntime) {
    let n = arguments::count(rt);
    for i in 1..n {
        show(rt, i);
    }
}
