// The day file, read at a place.
ghost use Rattle.std.specs.Prelude.{◌≡◌, ◌+◌, get_or};
ghost use Rattle.dayread.specs.File.{IsByte, IsInside, number_at};

use crate::raw::{byte, two_bytes};

// A struct, not the rest of the slice alone: RULES 9.4 asks for the file and a place in it together. The functions over it are thin:
// each takes it apart and calls one on the slice and the place.
#[derive(Clone, Copy)]
pub(crate) struct Reader<'a> {
    pub file: &'a [u8],
    pub at: usize,
}

// The byte at the reader's place.
fn byte_here<'a>(reader: Reader<'a>) -> usize
    requires { IsInside reader.file.now reader.at }
    ensures value { result ≡ get_or reader.entry.file.now reader.entry.at 0 }
    ensures small { IsByte result }
{
    byte(reader.file, reader.at)
}

// The number in two bytes, low byte first, at the reader's place.
fn number_here<'a>(reader: Reader<'a>) -> usize
    requires { IsInside reader.file.now (reader.at + 1) }
    ensures { result ≡ number_at reader.entry.file.now reader.entry.at }
{
    two_bytes(reader.file, reader.at)
}

// Who reads a file calls these two: their parameters are a plain slice and its place.
pub fn byte_at(file: &[u8], at: usize) -> usize
    requires { IsInside file.now at }
    ensures value { result ≡ get_or file.now at 0 }
    ensures small { IsByte result }
{
    byte_here(Reader { file, at })
}

pub fn number_at(file: &[u8], at: usize) -> usize
    requires { IsInside file.now (at + 1) }
    ensures { result ≡ number_at file.now at }
{
    number_here(Reader { file, at })
}
