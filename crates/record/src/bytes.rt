// Little-endian numbers of two bytes, read from a slice and stored into one.
ghost use Rattle.std.specs.Prelude.{◌≡◌, ◌+◌, ◌≤◌, length};
ghost use Rattle.record.specs.Bytes.{word, put_word};

// The number at an offset.
pub(crate) fn word_at(s: &[u8], at: usize) -> u16
    requires { at + 2 ≤ length s.now }
    ensures { result ≡ word s.now at }
{
    u16::from_le_bytes([s[at], s[at + 1]])
}

// Stores a number at an offset.
pub(crate) fn put_word(out: &mut [u8], at: usize, v: u16)
    requires { at + 2 ≤ length out.old }
    ensures { out.new ≡ put_word out.old at v }
{
    let [low, high] = v.to_le_bytes();
    out[at] = low;
    out[at + 1] = high;
}
