// reference/FORMAT.md: test cases on standard input, and what comes of them on standard output.
use crate::lists::run_case;
use crate::load::load_case;
use case_format::judged::{Kind, judge};
use case_format::stream::answer_each;

// All cases, to the first that is broken or the end. The arrays are made once, as a case uses no more of them than it says.
pub fn answer() {
    let mut memory = [0; 2_097_152];
    let mut console = [0; 4096];
    answer_each(|s, no| {
        match judge(s)? {
            Kind::Runs => run_case(s, no, &mut memory, &mut console),
            Kind::Load => load_case(s, no, &mut memory),
        }
        Ok(())
    });
}
