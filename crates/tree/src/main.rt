// The tree program: a day file from standard input, its tree to standard output.
#![tactic(auto)]

use dayio::print_tree;
use std::io::Result;

fn main(rt: HostRuntime) -> Result<()> {
    print_tree(&mut rt.stdin(), &mut rt.stdout())?;
    Ok(())
}
