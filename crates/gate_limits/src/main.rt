// The paper's program and the desk's on logs of 65,536 and of 65,537 bytes, on an empty one and on a folder: what each
// writes, and then how it ended.
#![tactic(auto)]

ghost use Rattle.std.specs.Prelude.{◌≡◌, length};

use files::input::open;
use files::outcome::{Failure, Outcome};
use files::output::write_all;
use files::system::{Sink, System};
use paper::list;
use products::Product;
use stream::run;

fn say(sys: &System, outcome: Outcome) {
    let said = match outcome {
        Ok(()) => b"done\n".as_slice(),
        Err(Failure::NotRead) => b"not read\n".as_slice(),
        Err(Failure::LongLine(_)) => b"a long line\n".as_slice(),
        Err(Failure::NoRoom(_)) => b"no room\n".as_slice(),
        Err(Failure::NotWritten) => b"not written\n".as_slice(),
        Err(Failure::Closed) => b"closed\n".as_slice(),
    };
    let _ = write_all(sys, Sink::Output, said);
}

// A window of fixed size, since there is no heap.
fn window() -> [u8; 4096]
    ensures { 4096 ≡ length result }
{
    [0; 4096]
}

// Through a window that is shorter than the logs, and into room for a few lines.
fn stream(sys: &System, product: Product, file: &[u8]) {
    let Some(from) = open(sys, file) else {
        say(sys, Err(Failure::NotRead));
        return;
    };
    let mut win = window();
    let mut out = window();
    let ended = run(
        sys,
        product,
        &from,
        &mut win,
        b"",
        Sink::Output,
        &mut out[0..100],
    );
    let outcome = ended.outcome;
    say(sys, outcome);
}

fn paper(sys: &System, file: &[u8]) {
    let Some(from) = open(sys, file) else {
        say(sys, Err(Failure::NotRead));
        return;
    };
    let outcome = list(sys, &from, Sink::Output);
    say(sys, outcome);
}

fn both(sys: &System, file: &[u8]) {
    let _ = write_all(sys, Sink::Output, b"paper ");
    let _ = write_all(sys, Sink::Output, file);
    let _ = write_all(sys, Sink::Output, b":\n");
    paper(sys, file);
    let _ = write_all(sys, Sink::Output, b"desk:\n");
    stream(sys, Product::Listing, file);
}

fn main(rt: HostRuntime) {
    let sys = System::new(rt);
    both(&sys, b"65536");
    both(&sys, b"65537");
    both(&sys, b"empty");
    both(&sys, b".");
    both(&sys, b"no such file");
    let _ = write_all(
        &sys,
        Sink::Output,
        b"fields, up to a line that has no room:\n",
    );
    stream(&sys, Product::Fields, b"65536");
}
