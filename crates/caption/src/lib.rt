// A point's caption: its own name in its line, or the club's label in a text that is lent beside the line.
#![tactic(auto)]

ghost use Rattle.std.specs.Prelude.{◌≡◌, ◌+◌, ◌≤◌, length};
ghost use Rattle.igc_log.specs.Log.{chunks};
ghost use Rattle.caption.specs.Caption.{nth, caption_of, ShowsOne};

use ahead::cut_ahead;
use c_turnpoint_record::CRecordTurnpoint;
use part::{InLine, Part};

// The n-th line of a text, from 1, which lies inside it; the empty part at its start where it has fewer.
fn nth_line(text: &[u8], n: usize) -> Part
    ensures { (result ≡ nth 0 n (chunks text.now)) × (result.start + result.len ≤ length text.now) }
{
    let mut at = 0;
    for k in 1..=n {
        if text.len() <= at {
            break;
        }
        let cut = cut_ahead(text, at);
        if k == n {
            return cut.line;
        }
        at = cut.next;
    }
    Part { start: 0, len: 0 }
}

// The caption of the n-th point, as a part of the caller's own line or of the caller's own labels: the point's name
// where there is something in it, else the n-th label.
pub fn caption<'a>(point: CRecordTurnpoint, line: &'a [u8], labels: &'a [u8], n: usize) -> &'a [u8]
    ensures { ShowsOne line.entry labels.entry
        (caption_of point n line.now labels.now) result }
{
    let name = point.turnpoint_name(line);
    if 0 < name.len() {
        return name;
    }
    let label = nth_line(labels, n);
    label.view(labels)
}
