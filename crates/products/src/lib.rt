// What the desk writes of a log, in pieces: the lines of each piece go into lent bytes, and what is carried goes on to
// the next.
#![tactic(auto)]

ghost use Rattle.std.specs.Prelude.{◌≡◌, true, length};
ghost use Rattle.put.specs.Put.{Wrote};
ghost use Rattle.products.specs.Product.{product_line, closing};
ghost use Rattle.products.specs.Feed.{at_first_of, is_ready_of, FedOf, Feeds};

use cursor::Cursor;
use held::tables::Tables;
use part::InLine;
use records::Reading;
use trailer_text::Trailer;
use walk::turn::read_at;

// What is asked of a log. An enum and no generic: callers hand it on as a value, and a closure may not be handed out.
#[derive(Clone, Copy)]
pub enum Product {
    Listing,
    Fields,
    Positions,
}

// What goes from piece to piece: the tables in force, the place of the next line, and the figures over the lines
// before.
#[derive(Clone, Copy)]
pub struct Carried {
    pub held: Tables,
    pub at: Cursor,
    pub trailer: Trailer,
}

// What is carried on, how many bytes of the piece were taken, and where the text of their lines ends.
#[derive(Clone, Copy)]
pub struct Fed {
    pub carried: Carried,
    pub taken: usize,
    pub end: usize,
}

// A line with this number, as it was read: what `held` has in force at it, and the names asked for.
#[tactic(auto, unfolding(crate::specs::Product::product_line))]
fn put_line(
    buf: &mut [u8],
    at: usize,
    product: Product,
    number: u64,
    line: &[u8],
    reading: Reading,
    held: Tables,
    names: &[u8],
) -> usize
    ensures { Wrote buf.old at (product_line product names.now number line.now reading held) buf.new result }
{
    match product {
        Product::Listing => listing_text::put_line(buf, at, number, line, reading),
        Product::Fields => fields_text::line::put_line(buf, at, number, line, reading, held, names),
        Product::Positions => positions_text::put_line(buf, at, number, line, reading, held),
    }
}

// Lines are taken while their text has room.
fn put_ready(product: Product, c: Carried, lines: &[u8], names: &[u8], buf: &mut [u8]) -> Fed
    requires { is_ready_of c (length lines.now) ≡ true }
    ensures { FedOf true product names.now c lines.now buf.old buf.new result }
{
    let base = c.at.place;
    let mut held = c.held;
    let mut number = c.at.number;
    let mut trailer = c.trailer;
    let mut taken = 0;
    let mut end = 0;
    // A turn steps by what it reads.
    while taken < lines.len() {
        let got = read_at(lines, taken);
        let line = got.line.view(lines);
        let after = held.after(line);
        let to = put_line(
            buf,
            end,
            product,
            number + 1,
            line,
            got.reading,
            after,
            names,
        );
        if buf.len() < to {
            let at = Cursor {
                place: base + taken,
                number,
            };
            return Fed {
                carried: Carried { held, at, trailer },
                taken,
                end,
            };
        }
        trailer = trailer.after(base + taken, line, got.reading);
        held = after;
        number = number + 1;
        taken = got.next;
        end = to;
    }
    let at = Cursor {
        place: base + taken,
        number,
    };
    Fed {
        carried: Carried { held, at, trailer },
        taken,
        end,
    }
}

// No count passes 64 bits over n bytes more.
fn is_ready(c: Carried, n: usize) -> bool
    ensures { result ≡ is_ready_of c n }
{
    if 0xffff_ffff_ffff_ffff - c.at.place < n {
        return false;
    }
    if 0xffff_ffff_ffff_ffff - c.at.number < n as u64 {
        return false;
    }
    if 0xffff_ffff_ffff_ffff - c.trailer.lines < n as u64 {
        return false;
    }
    n as u64 <= 0xffff_ffff_ffff_ffff - c.trailer.refused
}

// Before the first piece.
#[tactic(auto, unfolding(crate::specs::Feed::at_first_of))]
pub fn new() -> Carried
    ensures { result ≡ at_first_of }
{
    Carried {
        held: Tables::new(),
        at: Cursor::new(),
        trailer: Trailer::new(),
    }
}

// The lines that come next: `lines` are the bytes of the log from the place on, or as many of them as are at
// hand, and then whole lines. The names asked for are three bytes each; where there are none, those of the table in
// force.
pub fn put_lines(asked: Product, c: Carried, lines: &[u8], names: &[u8], buf: &mut [u8]) -> Fed
    ensures { Feeds asked names.now c lines.now buf.old buf.new result }
{
    if is_ready(c, lines.len()) {
        return put_ready(asked, c, lines, names, buf);
    }
    Fed {
        carried: c,
        taken: 0,
        end: 0,
    }
}

// What closes the text, after the last piece: a listing's trailer.
#[tactic(auto, using(put::proofs::Writing::wrote_nothing), unfolding(crate::specs::Product::closing))]
pub fn put_closing(buf: &mut [u8], at: usize, product: Product, c: Carried) -> usize
    ensures { Wrote buf.old at (closing product c.trailer) buf.new result }
{
    match product {
        Product::Listing => c.trailer.put(buf, at),
        Product::Fields | Product::Positions => at,
    }
}
