// The two parts of an input: a script and a history.
ghost use Rattle.std.specs.Prelude.{◌≡◌, ◌≤◌, length, position};
ghost use Rattle.k_input.specs.Division.{is_line_feed, is_divider, script_part, history_part};

fn line_feed_at(bytes: &[u8]) -> Option<usize>
    ensures { result ≡ position is_line_feed bytes.now }
{
    bytes.iter().position(|b| *b == b'\n')
}

fn is_divider(line: &[u8]) -> bool
    ensures { result ≡ is_divider line.now }
{
    line == b"--".as_slice()
}

/// The script and the history of an input: what stands before the first line that is `--`, and what stands behind that
/// line. Without such a line all of it is script, and the history is empty.
pub fn divide(bytes: &[u8]) -> (&[u8], &[u8])
    ensures script { result.0.now ≡ script_part bytes.now }
    ensures history { result.1.now ≡ history_part bytes.now }
    ensures within { length result.1.now ≤ length bytes.now }
{
    let mut at = 0;
    while let Some(end) = line_feed_at(&bytes[at..]) {
        if is_divider(&bytes[at..at + end]) {
            return (&bytes[..at], &bytes[at + end + 1..]);
        }
        at += end + 1;
    }
    if is_divider(&bytes[at..]) {
        return (&bytes[..at], &[]);
    }
    (bytes, &[])
}
