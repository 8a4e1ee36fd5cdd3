// The season's sheet as text: a block of lines for each log, and one for all of them.
#![tactic(auto)]

pub mod heights;
pub mod line;

ghost use Rattle.put.specs.Put.{Wrote};
ghost use Rattle.report.specs.Report.{figures_in};
ghost use Rattle.total.specs.Total.{total_in};
ghost use Rattle.sheet_text.specs.Sheet.{pressure_peak_line, gps_peak_line, pressure_spot_line, gps_spot_line};
ghost use Rattle.sheet_text.specs.Sheet.{figure_lines, log_text, all_text};

use crate::heights::put_range;
use crate::line::{put_counts, put_number, put_times};
use report::Report;
use total::Total;

// The figures of a log.
fn put_report(buf: &mut [u8], at: usize, report: Report) -> usize
    ensures { Wrote buf.old at (figure_lines pressure_peak_line gps_peak_line (figures_in report))
        buf.new result }
{
    let answers = report.answers;
    let at_pressure = put_counts(buf, at, report.lines, answers, report.fixes);
    let at_gps = put_range(buf, at_pressure, report.pressure);
    let at_times = put_range(buf, at_gps, report.gps);
    put_times(buf, at_times, report.times)
}

// The figures of all logs.
fn put_total(buf: &mut [u8], at: usize, total: Total) -> usize
    ensures { Wrote buf.old at (figure_lines pressure_spot_line gps_spot_line (total_in total).figures)
        buf.new result }
{
    let answers = total.answers;
    let at_pressure = put_counts(buf, at, total.lines, answers, total.fixes);
    let at_gps = put_range(buf, at_pressure, total.pressure);
    let at_times = put_range(buf, at_gps, total.gps);
    put_times(buf, at_times, total.times)
}

// The block of the log with that number.
pub fn put_log(buf: &mut [u8], at: usize, number: u64, report: Report) -> usize
    ensures { Wrote buf.old at (log_text number (figures_in report)) buf.new result }
{
    let next = put_number(buf, at, b"log ", number);
    put_report(buf, next, report)
}

// The block of all logs.
pub fn put_all(buf: &mut [u8], at: usize, total: Total) -> usize
    ensures { Wrote buf.old at (all_text (total_in total)) buf.new result }
{
    let next = put_number(buf, at, b"all ", total.logs);
    put_total(buf, next, total)
}
