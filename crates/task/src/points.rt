// The points of a task: how many there are, and whether the lines are points.
ghost use Rattle.std.specs.Prelude.{◌≡◌, drop};
ghost use Rattle.task_line.specs.Lines.{task_lines};
ghost use Rattle.task.specs.Sheet.{are_points_of, size_of};

use crate::TaskRefusal;
use task_line::{Kind, line_at};

// Takeoff, start, so many turns, finish and landing.
pub(crate) fn size_of(count: i8) -> Result<usize, TaskRefusal>
    ensures { result ≡ size_of count }
{
    if count < 0 {
        return Err(TaskRefusal::NegativeCount);
    }
    Ok(count as usize + 4)
}

// Whether the lines from a place on are points, as many as that.
pub(crate) fn are_points(log: &[u8], from: usize, points: usize) -> bool
    ensures { result ≡ are_points_of points (task_lines (drop from log.now)) }
{
    let mut place = from;
    for _ in 0..points {
        if log.len() <= place {
            return false;
        }
        let seen = line_at(log, place);
        let Kind::Point(_) = seen.kind else {
            return false;
        };
        place = seen.next;
    }
    true
}
