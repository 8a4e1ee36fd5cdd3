// The sheet of a log's task, by a file, with the labels of another: the log is read whole.
#![tactic(auto)]

ghost use Rattle.std.specs.Prelude.{◌≡◌, length};
ghost use Rattle.put.specs.Put.{Wrote};
ghost use Rattle.files.specs.Input.{FilledBehind, Within};
ghost use Rattle.tasks.specs.Answer.{words_of, refusal_text, whole_in, sheet_in, Answers};

use files::input::{Filled, NotRead, is_dash, open, read_on};
use files::output::write_all;
use files::say::{fail, refuse, write_block};
use files::system::{Sink, System, buffer};
use print::number::put_nat;
use put::{put_byte, put_bytes};
use task::{TaskRefusal, print_task};

// A log of at most 4,194,304 bytes, and one byte more, by which a longer one shows. The rooms here are fixed, since there
// is no heap.
fn log_buffer() -> [u8; 4194305]
    ensures { 4194305 ≡ length result }
{
    [0; 4194305]
}

// Labels of at most 65,536 bytes, and one byte more.
fn label_buffer() -> [u8; 65537]
    ensures { 65537 ≡ length result }
{
    [0; 65537]
}

// Room for a sheet.
fn sheet_buffer() -> [u8; 1048576]
    ensures { 1048576 ≡ length result }
{
    [0; 1048576]
}

fn put_words(buf: &mut [u8], at: usize, no: TaskRefusal) -> usize
    ensures { Wrote buf.old at (words_of no) buf.new result }
{
    match no {
        TaskRefusal::NoDeclaration => put_bytes(buf, at, b"no declaration"),
        TaskRefusal::NegativeCount => put_bytes(buf, at, b"negative count"),
        TaskRefusal::Interrupted => put_bytes(buf, at, b"too few or interrupted turnpoints"),
        TaskRefusal::NoRoom => put_bytes(buf, at, b"no room for the sheet"),
    }
}

// The number of a refusal, and its words.
fn put_refusal(buf: &mut [u8], at: usize, no: TaskRefusal) -> usize
    ensures { Wrote buf.old at (refusal_text no) buf.new result }
{
    let at_number = put_bytes(buf, at, b"task: ");
    let at_comma = put_nat(buf, at_number, no.number() as u64, 1);
    let at_words = put_bytes(buf, at_comma, b", ");
    let at_lf = put_words(buf, at_words, no);
    put_byte(buf, at_lf, b'\n')
}

// How many bytes a file has that was read to its end. Full bytes may not be all, and a failed read has none to go by.
fn length_read(filled: Result<Filled, NotRead>) -> Option<usize>
    ensures { result ≡ whole_in filled }
{
    match filled {
        Ok(Filled::Ended(n)) => Some(n),
        Ok(Filled::Full) => None,
        Err(_) => None,
    }
}

// The sheet printed or refused, by how far the bytes of both were filled; nothing where a file could not be read whole.
#[tactic(auto, using(crate::proofs::Reading::whole_inside))]
fn answer_of<'a>(
    filled: Result<Filled, NotRead>,
    log: &'a [u8],
    labelled: Result<Filled, NotRead>,
    labels: &'a [u8],
    sheet: &mut [u8],
) -> Option<Result<usize, TaskRefusal>>
    requires { Within filled log.now × Within labelled labels.now }
    ensures { Answers
        (sheet_in (whole_in filled) log.now (whole_in labelled) labels.now)
        sheet.old sheet.new result }
{
    let n = length_read(filled)?;
    let m = length_read(labelled)?;
    Some(print_task(&log[0..n], &labels[0..m], sheet))
}

// A sheet goes to standard output, and where that went well 0 to the descriptor `told`; a refusal to standard error.
fn write_printed(sys: &System, printed: Result<usize, TaskRefusal>, sheet: &mut [u8], told: Sink) {
    match printed {
        Ok(n) => {
            if write_block(sys, sheet, n) {
                let _ = write_all(sys, told, b"0");
            }
        }
        Err(no) => {
            let mut text = [0u8; 64];
            let end = put_refusal(&mut text, 0, no);
            if end <= text.len() {
                let _ = write_all(sys, Sink::Errors, &text[0..end]);
            }
        }
    }
}

// What went wrong in reading a file to its end.
fn say_filled(sys: &System, filled: Result<Filled, NotRead>, file: &[u8], too_long: &[u8]) {
    match filled {
        Ok(Filled::Ended(_)) => {}
        Ok(Filled::Full) => refuse(sys, file, too_long),
        Err(_) => fail(sys, file, b"cannot be read to its end"),
    }
}

// The bytes of a file; where there are more than have room, or they cannot be read, a sentence says so.
fn fill(sys: &System, file: &[u8], buf: &mut [u8], too_long: &[u8]) -> Result<Filled, NotRead>
    ensures { FilledBehind 0 buf.old buf.new result }
{
    let Some(from) = open(sys, file) else {
        fail(sys, file, b"cannot be opened");
        return Err(NotRead);
    };
    let filled = read_on(sys, &from, buf, 0);
    if is_dash(file) {
        say_filled(sys, filled, b"standard input", too_long);
        return filled;
    }
    say_filled(sys, filled, file, too_long);
    sys.close(from);
    filled
}

// The same of labels; a file that has no name has none.
fn fill_labels(sys: &System, file: &[u8], buf: &mut [u8]) -> Result<Filled, NotRead>
    ensures { FilledBehind 0 buf.old buf.new result }
{
    if file.is_empty() {
        return Ok(Filled::Ended(0));
    }
    fill(sys, file, buf, b"longer than 65536 bytes")
}

// The sheet of a log, with the labels of another file.
fn run_files(sys: &System, file: &[u8], label_file: &[u8], told: Sink) {
    let mut log = log_buffer();
    let mut labels = label_buffer();
    let mut sheet = sheet_buffer();
    let log_filled = fill(sys, file, &mut log, b"longer than 4194304 bytes");
    let labels_filled = fill_labels(sys, label_file, &mut labels);
    if let Some(printed) = answer_of(log_filled, &log, labels_filled, &labels, &mut sheet) {
        write_printed(sys, printed, &mut sheet, told);
    }
}

// The labels are those of the file that the argument `at` names.
fn run_labelled(sys: &System, file: &[u8], at: usize, told: Sink) {
    let mut label_file = buffer();
    let Ok(n) = sys.arg(at, &mut label_file) else {
        fail(sys, b"the labels' name", b"cannot be taken");
        return;
    };
    if n == 0 {
        let _ = write_all(
            sys,
            Sink::Errors,
            b"tokelivo: the labels' file has no name\n",
        );
        return;
    }
    if is_dash(file) && is_dash(&label_file[0..n]) {
        let _ = write_all(
            sys,
            Sink::Errors,
            b"tokelivo: log and labels cannot both come from standard input\n",
        );
        return;
    }
    run_files(sys, file, &label_file[0..n], told);
}

// The sheet of the log that the argument `at` names, with the labels of the file that the next one names, if there is
// one; where there is neither, of standard input.
pub fn run_task(sys: &System, at: usize, told: Sink) {
    let words = sys.arg_count();
    if words <= at {
        run_files(sys, b"-", b"", told);
        return;
    }
    if words - at > 2 {
        let _ = write_all(
            sys,
            Sink::Errors,
            b"tokelivo: task takes a log and its labels\n",
        );
        return;
    }
    let mut file = buffer();
    let Ok(n) = sys.arg(at, &mut file) else {
        fail(sys, b"the file's name", b"cannot be taken");
        return;
    };
    if words - at == 1 {
        run_files(sys, &file[0..n], b"", told);
        return;
    }
    run_labelled(sys, &file[0..n], at + 1, told);
}
