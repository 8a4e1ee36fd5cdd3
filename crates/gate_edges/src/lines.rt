// "Lines": each line is read and printed again.
use gate_say as say;
use record_print::print_record;
use records::Record;
use table::Table;

fn answer(rt: HostRuntime, record: Record, table: Table, text: &[u8]) {
    say::decimal(rt, record.number() as u64);
    say::write(rt, b" ");
    let mut buf = [b'.'; 48];
    let p = print_record(record, table, text, &mut buf);
    say::printed(rt, p, &buf);
}

pub fn line(rt: HostRuntime, text: &[u8]) {
    say::asked(rt, b"line", text);
    match Record::parse_line(text) {
        Ok(record) => answer(rt, record, record.table(text), text),
        Err(no) => say::refused(rt, no),
    }
}

// First bytes, and A and H lines.
pub fn first(rt: HostRuntime) {
    line(rt, b"");
    line(rt, b"AFLA123");
    line(rt, b"A\xffFIL01460FLIGHT:1");
    line(rt, b"HFFTYFRTYPE:X");
    line(rt, b"HFDTE020119\xe9");
    line(rt, b"LXXXcomment");
    line(rt, b"zzz");
    line(rt, b"\xff");
}

// B lines.
pub fn fixes(rt: HostRuntime) {
    line(rt, b"B1015304712345N01102500EA0152301561035");
    line(rt, b"B1015314712345N01102500EA01523x1561035");
    line(rt, b"B1015304712345N01102500EA+001200012");
    line(rt, b"B1015304712345N01102500EA3276800012");
    line(rt, b"B1015304712345N01102500EA-0042-0000");
    line(rt, b"B1015304712345N01102500EX0152301561");
    line(rt, b"B1015304712345N01102500EA015230156");
    line(rt, b"B1015304712345N01102500EV0152301561\xe9");
}

// K lines.
pub fn data(rt: HostRuntime) {
    line(rt, b"K10153004512");
    line(rt, b"K101530");
    line(rt, b"K10153");
    line(rt, b"K10+5300");
    line(rt, b"K1015x0");
    line(rt, b"K246060");
    line(rt, b"K250000");
    line(rt, b"K101530045\xe9");
}

// I and J lines.
pub fn tables(rt: HostRuntime) {
    line(rt, b"I00");
    line(rt, b"I01");
    line(rt, b"I0x");
    line(rt, b"I033638FXA3940SIU41x3ENL");
    line(rt, b"I023638FXA9x40SIU");
    line(rt, b"I013638FXA");
    line(rt, b"J020810WDI1113WVE");
    line(rt, b"I013636FXAx");
}

// C lines.
pub fn tasks(rt: HostRuntime) {
    line(rt, b"C2307180");
    line(rt, b"C230718092044000000000204Foo task");
    line(rt, b"C2307180920440000000002-0");
    line(rt, b"C5111359N00101899WLashamClubhouse");
    line(rt, b"C5111359N0010189");
}
