#![tactic(auto)]
// Prints what the mesh file on standard input says: its counts, or why it is turned down.
fn main(rt: HostRuntime) {
    if 1 < streams::arguments::count(rt) {
        streams::output::complain(rt, b"usage: inspect < FILE\n");
        return;
    }
    print::inspect(rt, &mut rt.stdin(), b"standard input");
}
