// settle: prints the settled table of the park file on standard input; room console has what it does.
#![tactic(auto)]

fn main(rt: HostRuntime) {
    console::settle_input(&rt);
}
