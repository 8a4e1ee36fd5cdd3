// The points of a task as text, a line each.
#![tactic(auto)]

ghost use Rattle.std.specs.Prelude.{◌≡◌, drop};
ghost use Rattle.put.specs.Put.{Wrote};
ghost use Rattle.task_line.specs.Lines.{line_of, task_lines};
ghost use Rattle.task_text.specs.Points.{point_text, points_text};

use caption::caption;
use part::InLine;
use print::printed::Piece;
use put::{put_byte, put_bytes};
use task_line::{Kind, line_at};

// The n-th point: caption, space, position, LF. A line that is no point has no text.
fn put_point<'a>(
    buf: &mut [u8],
    at: usize,
    kind: Kind,
    line: &'a [u8],
    labels: &'a [u8],
    n: usize,
) -> usize
    ensures { Wrote buf.old at (point_text labels.now n (line_of kind line.now))
        buf.new result }
{
    let Kind::Point(point) = kind else {
        return at;
    };
    let shown = caption(point, line, labels, n);
    let at_space = put_bytes(buf, at, shown);
    let at_position = put_byte(buf, at_space, b' ');
    let at_end = point.position.put(buf, at_position);
    put_byte(buf, at_end, b'\n')
}

// The lines from a place on as points, as many as that, the first of them the takeoff.
pub fn put_points<'a>(
    buf: &mut [u8],
    at: usize,
    log: &'a [u8],
    labels: &'a [u8],
    from: usize,
    points: usize,
) -> usize
    ensures { Wrote buf.old at
        (points_text labels.now 1 points (task_lines (drop from log.now)))
        buf.new result }
{
    let mut end = at;
    let mut place = from;
    for i in 0..points {
        if log.len() <= place {
            return end;
        }
        let seen = line_at(log, place);
        let line = seen.line.view(log);
        end = put_point(buf, end, seen.kind, line, labels, i + 1);
        place = seen.next;
    }
    end
}
