// "Extension values": definitions built by hand, asked of a fix and of a K line.
use b_record::BRecord;
use extension::Extension;
use field::Mnemonic;
use gate_say as say;
use k_record::KRecord;
use part::Part;
use text::refusal::Refusal;

fn found(rt: HostRuntime, answer: Result<Part, Refusal>) {
    match answer {
        Ok(_) => {
            say::write(rt, b"0\n");
        }
        Err(no) => say::refused(rt, no),
    }
}

fn definition(start: u8, end: u8) -> Extension {
    Extension {
        mnemonic: Mnemonic(b'F', b'X', b'A'),
        start_byte: start,
        end_byte: end,
    }
}

fn value(rt: HostRuntime, start: u8, end: u8) {
    let text = b"B1015304712345N01102500EA0152301561035";
    let def = definition(start, end);
    match BRecord::parse(text) {
        Ok(b) => {
            say::asked(rt, b"value", b.get_extension(def, text));
            found(rt, b.find_extension(def, text));
        }
        Err(no) => say::refused(rt, no),
    }
}

fn k_value(rt: HostRuntime, start: u8, end: u8) {
    let text = b"K10153004512";
    let def = definition(start, end);
    match KRecord::parse(text) {
        Ok(k) => {
            say::asked(rt, b"value", k.get_extension(def, text));
            found(rt, k.find_extension(def, text));
        }
        Err(no) => say::refused(rt, no),
    }
}

// Values of extensions.
pub fn values(rt: HostRuntime) {
    value(rt, 36, 38);
    value(rt, 35, 38);
    value(rt, 36, 39);
    value(rt, 38, 36);
    value(rt, 37, 37);
    k_value(rt, 8, 10);
    k_value(rt, 7, 10);
    k_value(rt, 8, 13);
    k_value(rt, 10, 8);
}
