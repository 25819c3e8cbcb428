// The program: one sheet from standard input, its text to standard output. Document 01, "Sheets worked through".
#![tactic(auto)]

mod console;

use console::work_input;

fn main(rt: HostRuntime) {
    work_input(&rt);
}
