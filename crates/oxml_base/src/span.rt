ghost use Rattle.std.specs.Prelude.{◌≡◌, ◌+◌, ◌-◌, ◌^◌, ◌≤◌, ◌==◌, not, min, length, take, take_while, reverse, count_by};
ghost use Rattle.oxml_base.specs.LineColumn.{line_behind, column_behind};

/// A run of bytes of a text, from `start` up to but not including `end`.
#[derive(Clone, Copy, Debug, PartialEq, Eq)]
pub struct Span {
    pub start: u32,
    pub end: u32,
}

/// The line and the column of a place in a text, both counted from 1, the column in bytes; each
/// stops at the greatest number of 32 bits. It takes no memory.
pub fn line_col(text: &[u8], at: u32) -> (u32, u32)
    requires { at ≤ length text.now }
    ensures line { result.0 ≡ min (line_behind (take at text.now)) (2 ^ 32 - 1) }
    ensures column { result.1 ≡ min (column_behind (take at text.now)) (2 ^ 32 - 1) }
{
    let before = &text[..at as usize];
    let lines = line_feeds(before);
    let behind = behind_line_feed(before);
    (one_more(lines), one_more(behind))
}

/// How many line feeds there are.
fn line_feeds(bytes: &[u8]) -> usize
    ensures { result ≡ count_by (λ byte. byte == 10) bytes.now }
{
    bytes.iter().filter(|byte| **byte == b'\n').count()
}

/// How many bytes stand behind the last line feed.
fn behind_line_feed(bytes: &[u8]) -> usize
    ensures { result ≡ length (take_while (λ byte. not (byte == 10)) (reverse bytes.now)) }
{
    bytes
        .iter()
        .rev()
        .take_while(|byte| **byte != b'\n')
        .count()
}

/// `n + 1`, or the greatest number of 32 bits.
fn one_more(n: usize) -> u32
    ensures { result ≡ min (1 + n) (2 ^ 32 - 1) }
{
    u32::try_from(n).unwrap_or(u32::MAX).saturating_add(1)
}
