// The first byte of a line, which says what kind of line it is.
ghost use Rattle.std.specs.Prelude.{◌≡◌};
ghost use Rattle.text.specs.Line.{begins as Line·begins};

// The line begins with that byte; an empty line begins with none.
pub fn begins(letter: u8, line: &[u8]) -> bool
    ensures { result ≡ Line·begins letter line.now }
{
    if line.len() == 0 {
        return false;
    }
    line[0] == letter
}
