// A day from a reader to a writer: what the day program, the tree program and their test share.
#![tactic(auto)]

ghost use Rattle.std.specs.Prelude.{◌≡◌, ◌≤◌, length, IfOk, OnErr, OnOk, replicate};
ghost use Rattle.rules.specs.Card.{base_length};
ghost use Rattle.text.specs.Put.{put_at};
ghost use Rattle.listing.specs.Buffer.{listing_length};
ghost use Rattle.dayfile.specs.Day.{listing};
ghost use Rattle.dayfile.specs.Tree.{tree_of_day};
ghost use Rattle.dayio.specs.Printed.{fresh, IsTextLength, IsListed, IsTree, Prints, PrintsPart, Fits, ForText};

use rules::day::{FILE_LENGTH, LISTING_LENGTH};
use rules::store::{BASE_LENGTH, SHADOW_LENGTH};
use rules::table::TABLE_LENGTH;
use std::io::{Read, Result, Write};
use streams::{read_full, write_full};

// Reads a file, and writes the text that f puts at the front of a buffer; back comes the text's length. One byte more than the
// longest day file has tells a file that is too long.
fn print_text<R: Read, W: Write, F>(from: &mut R, to: &mut W, f: F) -> Result<usize>
where
    F: FnOnce(&[u8], &mut [u8; LISTING_LENGTH]) -> usize + Drop,
    requires callable { F.IsAlwaysCallable f }
    requires fits { Fits F.FnOnce f }
    ensures size { ForText F.FnOnce f (λ text. IfOk result (IsTextLength text)) }
    ensures prints { ForText F.FnOnce f (λ text. OnOk result
        (Prints text (R.remaining from.old) (R.remaining from.new) (W.contents to.old) (W.contents to.new))) }
    ensures failed { ForText F.FnOnce f (λ text. OnErr result
        (PrintsPart text (R.remaining from.old) (R.remaining from.new) (W.contents to.old) (W.contents to.new))) }
{
    let mut file = [0; FILE_LENGTH + 1];
    let mut listing = [0; LISTING_LENGTH];
    let n = read_full(from, &mut file)?;
    let k = f(&file[..n], &mut listing);
    write_full(to, &listing[..k])?;
    Ok(k)
}

// The listing of a day on a ledger of its own.
fn put_listing(file: &[u8], out: &mut [u8; LISTING_LENGTH]) -> usize
    ensures fits { result ≤ listing_length }
    ensures size { result ≡ length (listing fresh file.now) }
    ensures leaves { out.new ≡ put_at out.old 0 (listing fresh file.now) }
{
    let mut table = [0; TABLE_LENGTH];
    let mut base = [0; BASE_LENGTH];
    let mut shadow = [0; SHADOW_LENGTH];
    dayfile::day::day(file, &mut table, &mut base, &mut shadow, out)
}

// Back comes the listing's length.
pub fn print_listing<R: Read, W: Write>(from: &mut R, to: &mut W) -> Result<usize>
    ensures listed { IfOk result IsListed }
    ensures text { OnOk result
        (Prints (listing fresh) (R.remaining from.old) (R.remaining from.new) (W.contents to.old) (W.contents to.new)) }
    ensures failed { OnErr result
        (PrintsPart (listing fresh) (R.remaining from.old) (R.remaining from.new) (W.contents to.old) (W.contents to.new)) }
{
    print_text(from, to, put_listing)
}

// The tree of a day on a ledger of its own.
fn put_tree(file: &[u8], out: &mut [u8; LISTING_LENGTH]) -> usize
    ensures fits { result ≤ listing_length }
    ensures size { result ≡ length (tree_of_day fresh (replicate base_length 0) file.now) }
    ensures leaves { out.new ≡ put_at out.old 0 (tree_of_day fresh (replicate base_length 0) file.now) }
{
    let mut table = [0; TABLE_LENGTH];
    let mut base = [0; BASE_LENGTH];
    let mut shadow = [0; SHADOW_LENGTH];
    let mut opening = [0; BASE_LENGTH];
    dayfile::tree::tree(file, &mut table, &mut base, &mut shadow, &mut opening, out)
}

// The same with the day's tree in place of its listing; back comes the text's length.
pub fn print_tree<R: Read, W: Write>(from: &mut R, to: &mut W) -> Result<usize>
    ensures shown { IfOk result IsTree }
    ensures text { OnOk result
        (Prints (tree_of_day fresh (replicate base_length 0)) (R.remaining from.old) (R.remaining from.new)
        (W.contents to.old) (W.contents to.new)) }
    ensures failed { OnErr result
        (PrintsPart (tree_of_day fresh (replicate base_length 0)) (R.remaining from.old) (R.remaining from.new)
        (W.contents to.old) (W.contents to.new)) }
{
    print_text(from, to, put_tree)
}
