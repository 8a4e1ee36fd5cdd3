// Values of extensions, looked up by name.
ghost use Rattle.std.specs.Prelude.{◌≡◌, ◌<◌, suc, ◌∷◌, length, drop};
ghost use Rattle.put.specs.Put.{Wrote};
ghost use Rattle.table.specs.Table.{defs_of};
ghost use Rattle.igc_log.specs.Fold.{texts};
ghost use Rattle.piece_text.specs.Value.{found_text, value_shown, table_names, asked_for};

use crate::piece::put_place;
use field::Mnemonic;
use held::Held;
use part::Part;
use print::number::put_nat;
use put::put_byte;
use table::Table;
use text::refusal::Refusal;

// 0 with the value's place behind `@`, or the refusal's number.
#[tactic(auto, unfolding(crate::specs::Value::found_text))]
fn put_found(buf: &mut [u8], at: usize, found: Result<Part, Refusal>) -> usize
    ensures { Wrote buf.old at (found_text found) buf.new result }
{
    match found {
        Ok(value) => {
            let at_mark = put_byte(buf, at, b'0');
            let at_place = put_byte(buf, at_mark, b'@');
            put_place(buf, at_place, value)
        }
        Err(no) => put_nat(buf, at, no.number() as u64, 1),
    }
}

// NAME=ANSWER on a line with `base` fixed columns and this rest.
pub fn show_value(
    buf: &mut [u8],
    at: usize,
    held: Held,
    base: usize,
    rest: Part,
    name: Mnemonic,
    line: &[u8],
) -> usize
    ensures { Wrote buf.old at (value_shown base held rest line.now name)
        buf.new result }
{
    let found = held.find(base, rest, name, line);
    let at_first = put_byte(buf, at, b' ');
    let at_sign = name.put(buf, at_first);
    let at_answer = put_byte(buf, at_sign, b'=');
    put_found(buf, at_answer, found)
}

// How many of the 99 slots count.
pub fn definition_count(table: Table) -> usize
    ensures { result ≡ length (defs_of table) }
{
    if 99 < table.count {
        return 99;
    }
    table.count as usize
}

// How many names the table in force has.
fn table_count(held: Held) -> usize
    ensures { result ≡ length (table_names held) }
{
    match held {
        Held::Never => 0,
        Held::Spoiled => 0,
        Held::Set(table) => definition_count(table),
    }
}

// How many names are asked for: those given, three bytes each, or where there are none those of the table in force.
fn asked_count(held: Held, names: &[u8]) -> usize
    ensures { result ≡ length (asked_for held names.now) }
{
    if 3 <= names.len() {
        return names.len() / 3;
    }
    table_count(held)
}

// The i-th of them; with no names given there is one of a table in force alone.
fn asked_at(held: Held, names: &[u8], i: usize) -> Mnemonic
    requires { i < length (asked_for held names.now) }
    ensures { drop i (asked_for held names.now) ≡ result ∷ drop (suc i) (asked_for held names.now) }
{
    if names.len() < 3 {
        return match held {
            Held::Never => Mnemonic(0, 0, 0),
            Held::Spoiled => Mnemonic(0, 0, 0),
            Held::Set(table) => table.defs[i].mnemonic,
        };
    }
    let a = 3 * i;
    Mnemonic(names[a], names[a + 1], names[a + 2])
}

// The values of such a line, in the order of the names.
pub fn show_values(
    buf: &mut [u8],
    at: usize,
    held: Held,
    base: usize,
    rest: Part,
    names: &[u8],
    line: &[u8],
) -> usize
    ensures { Wrote buf.old
        at (texts (value_shown base held rest line.now) (asked_for held names.now))
        buf.new result }
{
    let mut end = at;
    let count = asked_count(held, names);
    for i in 0..count {
        let name = asked_at(held, names, i);
        end = show_value(buf, end, held, base, rest, name, line);
    }
    end
}
