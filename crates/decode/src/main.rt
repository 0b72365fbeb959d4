// The decoder's program: reads code.txt and frame.txt and prints the listing.
#![tactic(auto)]

fn main(rt: HostRuntime) {
    files::run(&rt, b"code.txt", b"frame.txt");
}
