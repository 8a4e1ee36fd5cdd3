// The text of the paper's program, which takes a log of at most 65,536 bytes.
ghost use Rattle.text.specs.Res.{ok};
ghost use Rattle.print.specs.Print.{Prints};
ghost use Rattle.listing_text.specs.Paper.{paper_text};

use crate::listing::print_listing;
use put::put_bytes;
use text::refusal::Refusal;

// The listing, or that the log is too long.
pub fn print_paper(log: &[u8], buf: &mut [u8]) -> Result<usize, Refusal>
    ensures { Prints (ok (paper_text log.now)) buf.old buf.new result }
{
    if log.len() <= 65536 {
        return print_listing(log, buf);
    }
    if buf.len() < 9 {
        return Err(Refusal::NoRoom);
    }
    Ok(put_bytes(buf, 0, b"too long\n"))
}
