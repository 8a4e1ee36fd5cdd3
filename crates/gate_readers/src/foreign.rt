// "Lines": a first byte that is not its own, given to each reader of a line itself; `parse_line` never does that.
use a_record::ARecord;
use c_record::CRecordDeclaration;
use c_turnpoint_record::CRecordTurnpoint;
use gate_say as say;
use h_record::HRecord;
use k_record::KRecord;
use table::Table;
use text::refusal::Refusal;

// Whether its reader takes the text.
pub(crate) fn reader<R: Copy>(rt: HostRuntime, what: &[u8], text: &[u8], read: Result<R, Refusal>) {
    say::asked(rt, what, text);
    match read {
        Ok(_) => say::accepted(rt, b"", 0),
        Err(no) => say::refused(rt, no),
    }
}

// Lines whose first byte is not that of their reader.
pub fn first_bytes(rt: HostRuntime) {
    let recorder = b"ZFLA123";
    let header = b"hFFTYFRTYPE:X";
    let declaration = b"\xff230718092044000000000204Foo task";
    let turnpoint = b"D5111359N00101899WLashamClubhouse";
    let table = b"K013638FXA";
    let data = b"k10153004512";
    reader(rt, b"recorder", recorder, ARecord::parse(recorder));
    reader(rt, b"header", header, HRecord::parse(header));
    reader(
        rt,
        b"declaration",
        declaration,
        CRecordDeclaration::parse(declaration),
    );
    reader(
        rt,
        b"turnpoint",
        turnpoint,
        CRecordTurnpoint::parse(turnpoint),
    );
    reader(rt, b"table", table, Table::parse(table));
    reader(rt, b"data", data, KRecord::parse(data));
}
