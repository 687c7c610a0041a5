// Edits the metadata of sound and picture files. Its stored run makes a movie and edits it.
#![tactic(auto)]

use metaedit_top::run_program;
use std::process::ExitCode;

fn main(rt: HostRuntime) -> ExitCode {
    ExitCode::from(run_program(rt))
}
