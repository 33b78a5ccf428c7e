// Words that lie in rows of one length, as arrays.
ghost use Rattle.std.specs.Prelude.{◌*◌, ◌<◌, ◌≤◌, length};
ghost use Rattle.listing.specs.Rows.{AreRows};

pub(crate) fn rows<const N: usize>(words: &[u64], count: usize) -> &[[u64; N]]
    requires positive { 0 < N }
    requires inside { N * count ≤ length words.now }
    ensures { AreRows N count words.now result.now }
{
    let (rows, _) = words.as_chunks::<N>();
    &rows[..count]
}
