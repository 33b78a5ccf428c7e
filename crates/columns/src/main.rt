// Every kind of list, each from a file of data/: its name, then its lines.
// The expected lines are those of the second column (`compare/run column FILE`).
#![tactic(auto)]

use charges::print::print_column;
use std::io::Result;
use std::rt::Files;
use std::{fs, io};

const LISTS: [&str; 33] = [
    // The worked lists of docs/RULES.md.
    "list-01.charges",
    "list-02.charges",
    "list-03.charges",
    "list-04.charges",
    "list-05.charges",
    "list-06.charges",
    "list-07.charges",
    "list-08.charges",
    "list-09.charges",
    "list-10.charges",
    "list-11.charges",
    "list-12.charges",
    "list-13.charges",
    "list-14.charges",
    "list-15.charges",
    "list-16-10-bytes.charges",
    "list-16-5-bytes.charges",
    "list-17.charges",
    // Long and short lists of a season, some of them refused.
    "season-01.charges",
    "season-03.charges",
    "season-05.charges",
    "season-06.charges",
    "season-10.charges",
    "season-11.charges",
    "season-17.charges",
    "season-18.charges",
    "season-19.charges",
    "season-27.charges",
    "season-32.charges",
    "season-35.charges",
    // All accounts in turn; a fault in the last charge alone; cents whose high byte stands first.
    "all-accounts.charges",
    "high-byte-first.charges",
    "last-charge-bad.charges",
];

fn print_list(rt: &(impl Files + Print), name: &str) -> Result<()> {
    println!(rt; "{name}")?;
    let mut from = fs::open(rt, name)?;
    print_column(&mut from, &mut io::writer(rt))?;
    Ok(())
}

fn main(rt: HostRuntime) -> Result<()> {
    for name in LISTS {
        print_list(&rt, name)?;
    }
    Ok(())
}
