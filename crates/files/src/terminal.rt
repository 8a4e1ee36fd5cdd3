// What reaches a terminal.
ghost use Rattle.std.specs.Prelude.{◌≡◌, map};
ghost use Rattle.files.specs.Terminal.{visible};

// A byte that is no character of printable ASCII and no LF shows as `?`.
#[tactic(auto, using(crate::proofs::Showing::shown))]
pub fn visible(b: u8) -> u8
    ensures { result ≡ visible b }
{
    match b {
        b'\n' | b' '..=b'~' => b,
        _ => b'?',
    }
}

// A text as a terminal is to get it: no byte of it moves the cursor or paints over what stands there.
pub fn make_visible(text: &mut [u8])
    ensures { text.new ≡ map visible text.old }
{
    for b in text.iter_mut() {
        *b = visible(*b);
    }
}
