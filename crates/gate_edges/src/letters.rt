// "Lines": D, E, F, G and L (K7).
use crate::lines::line;

// D lines.
pub fn stations(rt: HostRuntime) {
    line(rt, b"D1ABCD");
    line(rt, b"D2ABCD");
    line(rt, b"D3ABCD");
    line(rt, b"D1ABC");
    line(rt, b"D1ABCDE");
    line(rt, b"D3\xc3\xa9CD");
}

// E lines.
pub fn events(rt: HostRuntime) {
    line(rt, b"E104030PEV");
    line(rt, b"E104030PEVtext\xe9");
    line(rt, b"E104030PE");
    line(rt, b"E104030PE\xe9");
    line(rt, b"E1040x0PEV");
    line(rt, b"E250000PEV");
}

// F lines.
pub fn satellites(rt: HostRuntime) {
    line(rt, b"F105300");
    line(rt, b"F1053000306091206");
    line(rt, b"F10530");
    line(rt, b"F105300030");
    line(rt, b"F25x00003\xe9");
    line(rt, b"F25000003\xe9\xe9");
    line(rt, b"F2500000306");
    line(rt, b"F10530003+6");
    line(rt, b"F105300030x");
}

// G and L lines.
pub fn others(rt: HostRuntime) {
    line(rt, b"G");
    line(rt, b"GREC4471\xe9");
    line(rt, b"LPLT");
    line(rt, b"LPLTtext\xe9");
    line(rt, b"LPL");
    line(rt, b"LPL\xe9text");
}
