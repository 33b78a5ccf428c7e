// A list from a reader to a writer: what the column program and its test share.
// Its body is that of dayio's `print_text`. One function for both would take a closure over `[u8; N]` with N a parameter, which the
// check does not cover.
ghost use Rattle.std.specs.Prelude.{IfOk, OnErr, OnOk};
ghost use Rattle.charges.specs.Printed.{IsPrinted, PrintsColumn, PrintsPart};

use crate::column::{COLUMN_LENGTH, column};
use crate::list::LIST_LENGTH;
use std::io::{Read, Result, Write};
use streams::{read_full, write_full};

// Back comes the text's length. One byte more than the longest list has tells a list that is too long.
pub fn print_column<R: Read, W: Write>(from: &mut R, to: &mut W) -> Result<usize>
    ensures printed { IfOk result IsPrinted }
    ensures text { OnOk result (PrintsColumn (R.remaining from.old) (W.contents to.old) (W.contents to.new)) }
    ensures failed { OnErr result
        (PrintsPart (R.remaining from.old) (R.remaining from.new) (W.contents to.old) (W.contents to.new)) }
{
    let mut list = [0; LIST_LENGTH + 1];
    let mut text = [0; COLUMN_LENGTH];
    let n = read_full(from, &mut list)?;
    let k = column(&list[..n], &mut text);
    write_full(to, &text[..k])?;
    Ok(k)
}
