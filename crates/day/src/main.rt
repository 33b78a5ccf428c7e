// The day program: a day file from standard input, its listing to standard output.
#![tactic(auto)]

use dayio::print_listing;
use std::io::Result;

fn main(rt: HostRuntime) -> Result<()> {
    print_listing(&mut rt.stdin(), &mut rt.stdout())?;
    Ok(())
}
