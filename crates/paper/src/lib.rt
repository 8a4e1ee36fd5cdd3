// The paper's program: the listing of a log of at most 65,536 bytes.
#![tactic(auto)]

ghost use Rattle.std.specs.Prelude.{◌≡◌, length};
ghost use Rattle.listing_text.specs.Paper.{paper_text};
ghost use Rattle.files.specs.Input.{Within};
ghost use Rattle.paper.specs.Answer.{written_answer, Begins};

use files::input::{Filled, NotRead, read_on};
use files::outcome::{Outcome, of_filled, write_text};
use files::system::{Sink, Source, System};
use listing_text::paper::print_paper;

// A log of at most 65,536 bytes, and one byte more, by which a longer one shows.
fn log_buffer() -> [u8; 65537]
    ensures { 65537 ≡ length result }
{
    [0; 65537]
}

// Room for the text of any log. It is fixed, since there is no heap.
fn text_buffer() -> [u8; 2490433]
    ensures { 2490433 ≡ length result }
{
    [0; 2490433]
}

// What the program writes, by how far its bytes were filled. It always has room.
fn put_answer(filled: Result<Filled, NotRead>, log: &[u8], text: &mut [u8]) -> usize
    requires { Within filled log.now × (2490433 ≡ length text.old) }
    ensures { Begins result text.new (written_answer filled log.now) }
{
    match filled {
        Ok(Filled::Ended(n)) => put_paper(&log[0..n], text),
        Ok(Filled::Full) => put_paper(log, text),
        Err(_) => 0,
    }
}

fn put_paper(log: &[u8], text: &mut [u8]) -> usize
    requires { 2490433 ≡ length text.old }
    ensures { Begins result text.new (paper_text log.now) }
{
    match print_paper(log, text) {
        Ok(n) => n,
        Err(_) => 0,
    }
}

// Reads a log, has its text made, and writes that.
pub fn list(sys: &System, from: &Source, to: Sink) -> Outcome {
    let mut log = log_buffer();
    let mut text = text_buffer();
    let filled = read_on(sys, from, &mut log, 0);
    let n = put_answer(filled, &log, &mut text);
    let written = write_text(sys, to, &mut text[0..n]);
    of_filled(filled, written)
}
