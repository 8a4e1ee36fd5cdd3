// The sheet of a log's first declared task: takeoff, start, turns, finish and landing, a line each.
#![tactic(auto)]

mod lines;
mod points;

ghost use Rattle.std.specs.Prelude.{◌≡◌, drop};
ghost use Rattle.task_line.specs.Lines.{task_lines};
ghost use Rattle.task.specs.Sheet.{sheet_of, sheet_from, task_number, PrintsSheet};

use crate::lines::find_declaration;
use crate::points::{are_points, size_of};
use task_text::put_points;

// Why there is no sheet: no declaration, a negative count, points that are too few or interrupted, or lent bytes that
// are too short.
#[derive(Clone, Copy)]
pub enum TaskRefusal {
    NoDeclaration,
    NegativeCount,
    Interrupted,
    NoRoom,
}

impl TaskRefusal {
    // The number that the papers give it.
    pub fn number(self) -> u8
        ensures { result ≡ task_number self }
    {
        match self {
            TaskRefusal::NoDeclaration => 16,
            TaskRefusal::NegativeCount => 17,
            TaskRefusal::Interrupted => 18,
            TaskRefusal::NoRoom => 10,
        }
    }
}

// The sheet of so many points, from a place on.
fn print_points<'a>(
    log: &'a [u8],
    labels: &'a [u8],
    from: usize,
    points: usize,
    buf: &mut [u8],
) -> Result<usize, TaskRefusal>
    ensures { PrintsSheet
        (sheet_from labels.now points (task_lines (drop from log.now)))
        buf.old buf.new result }
{
    if !are_points(log, from, points) {
        return Err(TaskRefusal::Interrupted);
    }
    if buf.len() < put_points(&mut [], 0, log, labels, from, points) {
        return Err(TaskRefusal::NoRoom);
    }
    Ok(put_points(buf, 0, log, labels, from, points))
}

// Prints the sheet of a log, its points without a name labelled by the lines of `labels`. Where there is no sheet, or
// no room for it, the lent bytes stay as they were.
pub fn print_task<'a>(log: &'a [u8], labels: &'a [u8], buf: &mut [u8]) -> Result<usize, TaskRefusal>
    ensures { PrintsSheet (sheet_of log.now labels.now)
        buf.old buf.new result }
{
    let Some(task) = find_declaration(log, 0) else {
        return Err(TaskRefusal::NoDeclaration);
    };
    let points = size_of(task.count)?;
    print_points(log, labels, task.next, points, buf)
}
