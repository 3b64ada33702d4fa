// synstat: reads what synrun reads, and writes the status picture of the set after its beats: for each line its kind, number, standing and how often it acted.
#![tactic(auto)]

use piping::pipe_through;
use transcript::View;

fn main(rt: HostRuntime) {
    pipe_through(
        rt.stdin(),
        &rt.stdout(),
        &rt.stderr(),
        View::Status,
        b"synstat",
    );
}
