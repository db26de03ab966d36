// The parts of the program's input: the lines at its front, one after the other, and what is behind them.

ghost use Rattle.std.specs.Prelude.{◌≡◌};
ghost use Rattle.protocol.specs.Program.{first_part, behind};

// What stands in front of the first LF: all of it where there is none.
pub fn first_part(s: &[u8]) -> &[u8]
    ensures { result.now ≡ first_part s.now }
{
    let end = text::find(s, b'\n');
    &s[..end]
}

// What stands behind the first LF: nothing where there is none.
pub fn behind(s: &[u8]) -> &[u8]
    ensures { result.now ≡ behind s.now }
{
    let end = text::find(s, b'\n');
    if end == s.len() {
        return &s[end..];
    }
    &s[end + 1..]
}
