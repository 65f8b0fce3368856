// Where the first part of some bytes ends.
ghost use Rattle.std.specs.Prelude.{◌≡◌, ◌≤◌, length};
ghost use Rattle.text.specs.Parts.{before};

// How many bytes stand before the first byte `mark`; all of them where there is none.
pub fn length_before(mark: u8, bytes: &[u8]) -> usize
    ensures value { result ≡ length (before mark bytes.now) }
    ensures within { result ≤ length bytes.now }
{
    bytes.iter().position(|b| *b == mark).unwrap_or(bytes.len())
}
