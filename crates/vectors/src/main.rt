// reference/FORMAT.md: reads test cases on standard input, makes their runs by the library's entries, and prints what comes of them.
#![tactic(auto)]

fn main() {
    cases::stream::answer();
}
