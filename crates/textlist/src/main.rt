// Program textlist: the texts of a 2D file from standard input, a line for each in file order, or the line of its refusal.

#![tactic(auto)]

fn main(rt: HostRuntime) {
    printing::list_input(
        &mut rt.stdin(),
        &rt.stdout(),
        &rt.stderr(),
        printing::Listed::Texts,
        b"textlist",
    );
}
