// The verdict on a record claim as text.
#![tactic(auto)]

ghost use Rattle.std.specs.Prelude.{◌≡◌};
ghost use Rattle.put.specs.Put.{Wrote};
ghost use Rattle.claim_text.specs.Text.{rule_text, no_text, verdict_text};

use claim::verdict::{Rule, Verdict};
use print::number::put_nat;
use put::{put_byte, put_bytes};

// The word of a rule.
pub fn put_rule(buf: &mut [u8], at: usize, rule: Rule) -> usize
    ensures { Wrote buf.old at (rule_text rule) buf.new result }
{
    match rule {
        Rule::First => put_bytes(buf, at, b"first"),
        Rule::Table => put_bytes(buf, at, b"table"),
        Rule::Long => put_bytes(buf, at, b"long"),
        Rule::Refused => put_bytes(buf, at, b"refused"),
        Rule::Book => put_bytes(buf, at, b"book"),
        Rule::Time => put_bytes(buf, at, b"time"),
    }
}

// The line of a no, without its end.
fn put_no(buf: &mut [u8], at: usize, line: u64, rule: Rule) -> usize
    ensures { Wrote buf.old at (no_text line rule) buf.new result }
{
    let at_line = put_bytes(buf, at, b"no ");
    let at_space = put_nat(buf, at_line, line, 1);
    let at_rule = put_byte(buf, at_space, b' ');
    put_rule(buf, at_rule, rule)
}

// The line of a verdict.
pub fn put_verdict(buf: &mut [u8], at: usize, verdict: Verdict) -> usize
    ensures { Wrote buf.old at (verdict_text verdict) buf.new result }
{
    match verdict {
        Verdict::Yes => put_bytes(buf, at, b"yes\n"),
        Verdict::No { line, rule } => {
            let at_end = put_no(buf, at, line, rule);
            put_byte(buf, at_end, b'\n')
        }
    }
}
