// A window on a log that is read in pieces: how much of it is whole lines, and what of it waits for the next read.
#![tactic(auto)]

ghost use Rattle.std.specs.Prelude.{◌≡◌, ◌-◌, length, drop};
ghost use Rattle.std.proofs.lemmas.List.Edits.{sets};
ghost use Rattle.window.specs.Piece.{whole_length_of, piece_end_of};

// The bytes up to the last LF, and that LF.
fn whole_length(piece: &[u8]) -> usize
    ensures { result ≡ whole_length_of piece.now }
{
    for i in (0..piece.len()).rev() {
        if piece[i] == b'\n' {
            return i + 1;
        }
    }
    0
}

// How much of a piece can be read: of the last one all, of another its whole lines.
pub fn piece_end(piece: &[u8], last: bool) -> usize
    ensures { result ≡ piece_end_of last piece.now }
{
    if last {
        return piece.len();
    }
    whole_length(piece)
}

// What stands in a window from a place on, moved to its front; how many bytes that is. Those behind them stay.
pub fn keep_rest(win: &mut [u8], from: usize) -> usize
    ensures value { result ≡ length win.old - from }
    ensures win_after { win.new ≡ sets win.old 0 (drop from win.old) }
{
    if win.len() < from {
        return 0;
    }
    win.copy_within(from.., 0);
    win.len() - from
}
