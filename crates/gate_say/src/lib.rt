// Writing a case and what came of it.
#![tactic(auto)]

use text::refusal::Refusal;

// Some bytes to standard output. Where they cannot be written, what the program writes falls short.
pub fn write(rt: HostRuntime, bytes: &[u8]) {
    let _ = rt.write_all(bytes);
}

// A number.
pub fn decimal(rt: HostRuntime, n: u64) {
    let _ = print!(rt; "{n}");
}

// What is asked, and of which text.
pub fn asked(rt: HostRuntime, what: &[u8], text: &[u8]) {
    write(rt, what);
    write(rt, b" `");
    write(rt, text);
    write(rt, b"` ");
}

// The refusal's number, and `@` with its place where it has one.
pub fn refused(rt: HostRuntime, no: Refusal) {
    decimal(rt, no.number() as u64);
    match no.place() {
        Some(place) => {
            write(rt, b"@");
            decimal(rt, place as u64);
        }
        None => {}
    }
    write(rt, b"\n");
}

// An accepted number, whose text is the first n bytes of the buffer.
pub fn accepted(rt: HostRuntime, buf: &[u8], n: usize) {
    write(rt, b"0 ");
    if n <= buf.len() {
        write(rt, &buf[0..n]);
    }
    write(rt, b"\n");
}

// What a printer answered, and the buffer as it then is.
pub fn printed(rt: HostRuntime, p: Result<usize, Refusal>, buf: &[u8]) {
    match p {
        Ok(n) => {
            write(rt, b"wrote ");
            decimal(rt, n as u64);
        }
        Err(no) => {
            decimal(rt, no.number() as u64);
        }
    }
    write(rt, b" `");
    write(rt, buf);
    write(rt, b"`\n");
}
