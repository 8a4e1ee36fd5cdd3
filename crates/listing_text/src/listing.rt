// The whole listing of a log.
ghost use Rattle.std.specs.Prelude.{◌≡◌};
ghost use Rattle.text.specs.Res.{ok, ◌≤?◌};
ghost use Rattle.put.specs.Put.{Wrote};
ghost use Rattle.print.specs.Print.{Prints};
ghost use Rattle.listing_text.specs.Listing.{listing_text_of, room_for};

use crate::put_line;
use part::InLine;
use text::refusal::Refusal;
use trailer_text::Trailer;
use walk::turn::read_at;

// What a fresh walk over the log reads, line by line, and the trailer.
fn put_listing(buf: &mut [u8], at: usize, log: &[u8]) -> usize
    ensures { Wrote buf.old at (listing_text_of log.now) buf.new result }
{
    let mut trailer = Trailer::new();
    let mut end = at;
    let mut place = 0;
    // A turn steps by what it reads.
    while place < log.len() {
        let got = read_at(log, place);
        let line = got.line.view(log);
        trailer = trailer.after(place, line, got.reading);
        end = put_line(buf, end, trailer.lines, line, got.reading);
        place = got.next;
    }
    trailer.put(buf, end)
}

// The listing of any log of n bytes has room.
fn has_room(n: usize, room: usize) -> bool
    ensures { result ≡ (room_for n ≤? room) }
{
    65 <= room && n <= (room - 65) / 38
}

// The log is read once where the listing has room for sure. Else it is tried on no bytes first: a refused call leaves
// lent bytes as they were.
pub fn print_listing(log: &[u8], buf: &mut [u8]) -> Result<usize, Refusal>
    ensures { Prints (ok (listing_text_of log.now)) buf.old buf.new result }
{
    if has_room(log.len(), buf.len()) {
        return Ok(put_listing(buf, 0, log));
    }
    if buf.len() < put_listing(&mut [], 0, log) {
        return Err(Refusal::NoRoom);
    }
    Ok(put_listing(buf, 0, log))
}
