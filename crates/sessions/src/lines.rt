// What stands in a line of the input.
ghost use Rattle.std.specs.Prelude.{◌≤◌};
ghost use Rattle.report.specs.Lines.{Front};

// The value of a hexadecimal digit; 0 for any other byte.
fn digit(b: u8) -> u8
    ensures { result ≤ 15 }
{
    match b {
        b'0'..=b'9' => b - b'0',
        b'a'..=b'f' => b - b'a' + 10,
        _ => 0,
    }
}

// The bytes that digits spell, two to a byte, at the start of `out`; answers how many. A last digit alone is left out,
// and so are the bytes behind the end of `out`.
pub(crate) fn decode(digits: &[u8], out: &mut [u8]) -> usize
    ensures { Front result out.new }
{
    let (pairs, _) = digits.as_chunks::<2>();
    for (byte, [high, low]) in out.iter_mut().zip(pairs) {
        *byte = 16 * digit(*high) + digit(*low);
    }
    pairs.len().min(out.len())
}
