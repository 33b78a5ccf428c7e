// Bytes of a slice as numbers: what the reader stands on.
ghost use Rattle.std.specs.Prelude.{◌≡◌, ◌+◌, get_or};
ghost use Rattle.dayread.specs.File.{IsByte, IsInside, number_at};

// The byte at a place.
pub(crate) fn byte(file: &[u8], at: usize) -> usize
    requires { IsInside file.now at }
    ensures value { result ≡ get_or file.now at 0 }
    ensures small { IsByte result }
{
    usize::from(file[at])
}

// A number in two bytes, low byte first.
pub(crate) fn two_bytes(file: &[u8], at: usize) -> usize
    requires { IsInside file.now (at + 1) }
    ensures { result ≡ number_at file.now at }
{
    usize::from(u16::from_le_bytes([file[at], file[at + 1]]))
}
