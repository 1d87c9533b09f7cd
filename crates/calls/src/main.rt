// reference/CALLS.md: reads calls that are no runs on standard input, makes them by the library's entries, and prints what comes of them.
#![tactic(auto)]

mod listings;
mod machines;
mod stream;

fn main() {
    stream::answer();
}
