// The column program: a list of charges from standard input, its accounts' lines to standard output.
#![tactic(auto)]

use charges::print::print_column;
use std::io::Result;

fn main(rt: HostRuntime) -> Result<()> {
    print_column(&mut rt.stdin(), &mut rt.stdout())?;
    Ok(())
}
