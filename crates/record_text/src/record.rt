// The fields of a record, one form for each kind.
ghost use Rattle.table.specs.Table.{defs_of};
ghost use Rattle.put.specs.Put.{Wrote};
ghost use Rattle.igc_log.specs.Fold.{texts};
ghost use Rattle.record_text.specs.Record.{a_shown, fix_shown, b_shown, task_shown, declaration_shown, turnpoint_shown};
ghost use Rattle.record_text.specs.Record.{d_shown, e_shown, f_shown, g_shown, h_shown, k_shown, l_shown};
ghost use Rattle.record_text.specs.Record.{definition_shown, table_shown, record_shown};

use a_record::ARecord;
use b_record::{BRecord, Height};
use c_record::CRecordDeclaration;
use c_turnpoint_record::CRecordTurnpoint;
use d_record::DRecord;
use e_record::ERecord;
use extension::Extension;
use f_record::FRecord;
use g_record::GRecord;
use h_record::HRecord;
use held::Held;
use held::tables::Tables;
use k_record::KRecord;
use l_record::LRecord;
use piece_text::piece::{
    show_byte, show_date, show_flight, show_letter, show_maybe, show_number, show_part,
    show_position, show_time, show_triple,
};
use piece_text::value::{definition_count, show_values};
use print::number::{put_i8, put_nat};
use put::put_byte;
use records::Record;
use table::Table;

// The maker's two codes, unique id, id extension.
fn show_a(buf: &mut [u8], at: usize, a: ARecord) -> usize
    ensures { Wrote buf.old at (a_shown a) buf.new result }
{
    let at_triple = show_letter(buf, at, a.manufacturer.to_single_char());
    let at_id = show_triple(buf, at_triple, a.manufacturer.to_triple_char());
    let at_extension = show_part(buf, at_id, a.unique_id);
    show_maybe(buf, at_extension, a.id_extension)
}

// A or V, the pressure height and then the GPS height, and the rest.
fn show_fix(buf: &mut [u8], at: usize, b: BRecord) -> usize
    ensures { Wrote buf.old at (fix_shown b) buf.new result }
{
    let at_space = show_byte(buf, at, b.fix_valid.letter());
    let at_pressure = put_byte(buf, at_space, b' ');
    let at_second = b.pressure_alt.put(buf, at_pressure, 1);
    let at_gps = put_byte(buf, at_second, b' ');
    let at_rest = b.gps_alt.put(buf, at_gps, 1);
    show_part(buf, at_rest, b.rest)
}

// Time, position, the fix, and the values of the names.
fn show_b(buf: &mut [u8], at: usize, b: BRecord, held: Held, names: &[u8], line: &[u8]) -> usize
    ensures { Wrote buf.old at (b_shown b held names.now line.now) buf.new result }
{
    let at_place = show_time(buf, at, b.timestamp);
    let at_fix = show_position(buf, at_place, b.pos);
    let at_values = show_fix(buf, at_fix, b);
    show_values(
        buf,
        at_values,
        held,
        BRecord::BASE_LENGTH,
        b.rest,
        names,
        line,
    )
}

// Time, rest, and the values of the names.
fn show_k(buf: &mut [u8], at: usize, k: KRecord, held: Held, names: &[u8], line: &[u8]) -> usize
    ensures { Wrote buf.old at (k_shown k held names.now line.now) buf.new result }
{
    let at_rest = show_time(buf, at, k.time);
    let at_values = show_part(buf, at_rest, k.rest);
    show_values(
        buf,
        at_values,
        held,
        KRecord::BASE_LENGTH,
        k.rest,
        names,
        line,
    )
}

// Task, count, name.
fn show_task(buf: &mut [u8], at: usize, task: CRecordDeclaration) -> usize
    ensures { Wrote buf.old at (task_shown task) buf.new result }
{
    let at_space = show_number(buf, at, task.task_id as u64);
    let at_count = put_byte(buf, at_space, b' ');
    let at_name = put_i8(buf, at_count, task.turnpoint_count, 1);
    show_maybe(buf, at_name, task.task_name)
}

// Date, time, flight date, and the task.
fn show_declaration(buf: &mut [u8], at: usize, task: CRecordDeclaration) -> usize
    ensures { Wrote buf.old at (declaration_shown task) buf.new result }
{
    let at_hour = show_date(buf, at, task.date);
    let at_flight = show_time(buf, at_hour, task.time);
    let at_id = show_flight(buf, at_flight, task.flight_date);
    show_task(buf, at_id, task)
}

fn show_turnpoint(buf: &mut [u8], at: usize, point: CRecordTurnpoint) -> usize
    ensures { Wrote buf.old at (turnpoint_shown point) buf.new result }
{
    let at_name = show_position(buf, at, point.position);
    show_maybe(buf, at_name, point.turnpoint_name)
}

// The qualifier's byte, station.
fn show_d(buf: &mut [u8], at: usize, d: DRecord) -> usize
    ensures { Wrote buf.old at (d_shown d) buf.new result }
{
    let at_station = show_byte(buf, at, d.qualifier.letter());
    show_part(buf, at_station, d.station_id)
}

// Time, code, text.
fn show_e(buf: &mut [u8], at: usize, e: ERecord) -> usize
    ensures { Wrote buf.old at (e_shown e) buf.new result }
{
    let at_mnemonic = show_time(buf, at, e.time);
    let at_text = show_part(buf, at_mnemonic, e.mnemonic);
    show_maybe(buf, at_text, e.text)
}

// Time, how many different satellites, the list.
fn show_f(buf: &mut [u8], at: usize, f: FRecord) -> usize
    ensures { Wrote buf.old at (f_shown f) buf.new result }
{
    let at_count = show_time(buf, at, f.time);
    let at_list = show_number(buf, at_count, f.satellites.count() as u64);
    show_part(buf, at_list, f.list)
}

#[tactic(auto, unfolding(crate::specs::Record::g_shown))]
fn show_g(buf: &mut [u8], at: usize, g: GRecord) -> usize
    ensures { Wrote buf.old at (g_shown g) buf.new result }
{
    show_part(buf, at, g.data)
}

// The source's byte as it is, mnemonic, name, data.
fn show_h(buf: &mut [u8], at: usize, h: HRecord) -> usize
    ensures { Wrote buf.old at (h_shown h) buf.new result }
{
    let at_short = show_byte(buf, at, h.data_source.to_byte());
    let at_name = show_part(buf, at_short, h.mnemonic);
    let at_data = show_maybe(buf, at_name, h.friendly_name);
    show_part(buf, at_data, h.data)
}

// Source, text.
fn show_l(buf: &mut [u8], at: usize, l: LRecord) -> usize
    ensures { Wrote buf.old at (l_shown l) buf.new result }
{
    let at_text = show_part(buf, at, l.source);
    show_maybe(buf, at_text, l.text)
}

// START-ENDNAME.
fn show_definition(buf: &mut [u8], at: usize, e: Extension) -> usize
    ensures { Wrote buf.old at (definition_shown e) buf.new result }
{
    let at_dash = show_number(buf, at, e.start_byte as u64);
    let at_end = put_byte(buf, at_dash, b'-');
    let at_name = put_nat(buf, at_end, e.end_byte as u64, 1);
    e.mnemonic.put(buf, at_name)
}

// The definitions that count, one after the other.
fn show_definitions(buf: &mut [u8], at: usize, table: Table) -> usize
    ensures { Wrote buf.old at (texts definition_shown (defs_of table)) buf.new result }
{
    let mut next = at;
    for i in 0..definition_count(table) {
        next = show_definition(buf, next, table.defs[i]);
    }
    next
}

// Count and definitions.
fn show_table(buf: &mut [u8], at: usize, table: Table) -> usize
    ensures { Wrote buf.old at (table_shown table) buf.new result }
{
    let next = show_number(buf, at, table.count as u64);
    show_definitions(buf, next, table)
}

// The fields of a record: the table is that of an I or a J line itself, `held` what is in force at a B or a K line.
#[tactic(auto, using(put::proofs::Writing::wrote_nothing), unfolding(crate::specs::Record::record_shown))]
pub fn show_record(
    buf: &mut [u8],
    at: usize,
    rec: Record,
    table: Table,
    held: Tables,
    names: &[u8],
    line: &[u8],
) -> usize
    ensures { Wrote buf.old at (record_shown rec table held names.now line.now)
        buf.new result }
{
    match rec {
        Record::A(a) => show_a(buf, at, a),
        Record::B(b) => show_b(buf, at, b, held.i, names, line),
        Record::CDeclaration(task) => show_declaration(buf, at, task),
        Record::CTurnpoint(point) => show_turnpoint(buf, at, point),
        Record::D(d) => show_d(buf, at, d),
        Record::E(e) => show_e(buf, at, e),
        Record::F(f) => show_f(buf, at, f),
        Record::G(g) => show_g(buf, at, g),
        Record::H(h) => show_h(buf, at, h),
        Record::I | Record::J => show_table(buf, at, table),
        Record::K(k) => show_k(buf, at, k, held.j, names, line),
        Record::L(l) => show_l(buf, at, l),
        Record::Unrecognised(_) => at,
    }
}
