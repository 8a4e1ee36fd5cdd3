// "Lines": a first byte that is not its own, given to each reader of D, E, F, G and L lines.
use crate::foreign::reader;
use d_record::DRecord;
use e_record::ERecord;
use f_record::FRecord;
use g_record::GRecord;
use l_record::LRecord;

// Lines whose first byte is not that of their reader; F lines are read whatever it is, as in the Rust.
pub fn first_bytes(rt: HostRuntime) {
    reader(rt, b"station", b"d1ABCD", DRecord::parse(b"d1ABCD"));
    reader(rt, b"event", b"e104030PEV", ERecord::parse(b"e104030PEV"));
    reader(rt, b"satellites", b"f105300", FRecord::parse(b"f105300"));
    reader(rt, b"signature", b"", GRecord::parse(b""));
    reader(rt, b"remark", b"lPLT", LRecord::parse(b"lPLT"));
}
