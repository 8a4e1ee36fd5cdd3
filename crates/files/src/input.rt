// Reading into lent bytes.
ghost use Rattle.std.specs.Prelude.{◌≡◌, true, ◌≤◌, length, Some};
ghost use Rattle.files.specs.Input.{CameBehind, FilledBehind, MoreBehind, is_dash_of};

use crate::call::{CallError, did_by};
use crate::system::{Source, System};

// A read failed.
#[derive(Clone, Copy, PartialEq, Eq)]
pub struct NotRead;

// How far lent bytes were filled: up to the input's end; or wholly, and no end was seen.
#[derive(Clone, Copy)]
pub enum Filled {
    Ended(usize),
    Full,
}

// What came behind the first of some lent bytes: so many; or none, for the input has ended or there is no room for any.
#[derive(Clone, Copy)]
pub enum Came {
    Bytes(usize),
    Ended,
    NoRoom,
}

// One call, behind the first bytes, made again where a signal interrupted it: how many bytes came, or none at the end.
fn read_some(
    sys: &System,
    from: &Source,
    buf: &mut [u8],
    at: usize,
) -> Result<Option<usize>, NotRead>
    requires { at ≤ length buf.old }
    ensures { CameBehind at buf.old buf.new result }
{
    for _ in 0..u64::MAX {
        let got = sys.read(from, &mut buf[at..]);
        match did_by(got) {
            Ok(some) => return Ok(some),
            Err(CallError::Again) => {}
            Err(_) => return Err(NotRead),
        }
    }
    Err(NotRead)
}

// Reads behind the first bytes until the lent ones are full or the input ends.
pub fn read_on(
    sys: &System,
    source: &Source,
    buf: &mut [u8],
    from: usize,
) -> Result<Filled, NotRead>
    ensures { FilledBehind from buf.old buf.new result }
{
    let mut at = from;
    while at < buf.len() {
        match read_some(sys, source, buf, at)? {
            None => return Ok(Filled::Ended(at)),
            Some(n) => at += n,
        }
    }
    Ok(Filled::Full)
}

// Reads behind the first bytes once, as many bytes as are at hand: it waits for the first of them alone.
pub fn read_more(
    sys: &System,
    source: &Source,
    buf: &mut [u8],
    from: usize,
) -> Result<Came, NotRead>
    ensures { MoreBehind from buf.old buf.new result }
{
    if buf.len() <= from {
        return Ok(Came::NoRoom);
    }
    match read_some(sys, source, buf, from)? {
        None => Ok(Came::Ended),
        Some(n) => Ok(Came::Bytes(n)),
    }
}

// The name that stands for standard input.
pub fn is_dash(file: &[u8]) -> bool
    ensures { result ≡ is_dash_of file.now }
{
    file.len() == 1 && file[0] == b'-'
}

// Standard input, or the file with this name; or nothing.
pub fn open(sys: &System, file: &[u8]) -> Option<Source>
    ensures { is_dash_of file.now ≡ true → result ≡ Some Source.Input }
{
    if is_dash(file) {
        return Some(Source::Input);
    }
    sys.open(file)
}
