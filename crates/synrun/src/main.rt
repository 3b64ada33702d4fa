// synrun: reads a set text and beat lines from standard input, and writes what each beat gives, and END.
#![tactic(auto)]

use piping::pipe_through;
use transcript::View;

fn main(rt: HostRuntime) {
    pipe_through(rt.stdin(), &rt.stdout(), &rt.stderr(), View::Run, b"synrun");
}
