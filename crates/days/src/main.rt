// Every kind of day, each from a file of data/: its name, then its listing, then its tree.
// The expected lines are those of the second engine (`compare/run lines FILE`, `compare/run tree FILE`).
#![tactic(auto)]

use dayio::{print_listing, print_tree};
use std::io::Result;
use std::rt::Files;
use std::{fs, io};

const DAYS: [&str; 52] = [
    // Worked cases of docs/RULES.md.
    "case-04.day",
    "case-11.day",
    "case-14.day",
    "case-31.day",
    "case-35.day",
    "case-44.day",
    "case-45.day",
    // Files that are refused.
    "fault-empty.day",
    "fault-33-cards.day",
    "fault-cards-cut.day",
    "fault-no-count.day",
    "fault-1001-events.day",
    "fault-count-low-byte-first.day",
    "fault-events-cut.day",
    "fault-bytes-after.day",
    "fault-equal-accounts.day",
    "fault-falling-accounts.day",
    "fault-account-32.day",
    "fault-cut-before-accounts.day",
    "fault-too-long.day",
    // Nested and overlapping actions.
    "deep.day",
    "moves-up.day",
    "siblings-that-clash.day",
    "siblings-that-only-write.day",
    "all-opening-cards.day",
    "aborted-trees.day",
    "own-cards.day",
    // Charge accounts, and what the tree says of them.
    "charges.day",
    "depot-totals.day",
    "sums-at-the-ends.day",
    "tree.day",
    "given-up-adds.day",
    // Numbers that are given again, some of them hundreds of times, and trees beside actions that lost theirs.
    "hundred-rides.day",
    "dropped-child.day",
    "dropped-parent.day",
    "many-nested.day",
    "many-queued.day",
    "many-refused.day",
    // Many siblings at once, with verdicts among them.
    "wide-families.day",
    "busy-families.day",
    // Actions that wait.
    "queue.day",
    "queue-sums.day",
    "queue-verdicts.day",
    "queue-busy.day",
    "queue-edge.day",
    "two-queues-1.day",
    "two-queues-2.day",
    "two-queues-edge.day",
    // Days with next to nothing in them, and mixed ones.
    "no-events.day",
    "nothing.day",
    "mixed-1.day",
    "mixed-2.day",
];

fn print_day(rt: &(impl Files + Print), name: &str) -> Result<()> {
    println!(rt; "{name}")?;
    let mut file = fs::open(rt, name)?;
    print_listing(&mut file, &mut io::writer(rt))?;
    let mut again = fs::open(rt, name)?;
    print_tree(&mut again, &mut io::writer(rt))?;
    Ok(())
}

fn main(rt: HostRuntime) -> Result<()> {
    for name in DAYS {
        print_day(&rt, name)?;
    }
    Ok(())
}
