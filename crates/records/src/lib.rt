// Lines of every kind, as src/records/mod.rs has them.
#![tactic(auto)]

ghost use Rattle.std.specs.Prelude.{◌≡◌};
ghost use Rattle.text.specs.Res.{bind, ok};
ghost use Rattle.table.specs.Table.{read_table};
ghost use Rattle.records.specs.Record.{Kind, whole, read_kind, read_line_of, record_table, record_book};
ghost use Rattle.records.specs.Record.{record_fix, accepted_as, answered, answer_fix};

use a_record::ARecord;
use b_quick::quick_fix;
use b_record::BRecord;
use c_record::{CRecordDeclaration, is_turnpoint};
use c_turnpoint_record::CRecordTurnpoint;
use d_record::DRecord;
use e_record::ERecord;
use f_record::FRecord;
use g_record::GRecord;
use h_record::HRecord;
use k_record::KRecord;
use l_record::LRecord;
use part::Part;
use table::Table;
use text::refusal::Refusal;

// The definitions of an I or a J line stand beside the record, in a `Table`, so that a record stays small.
#[derive(Clone, Copy)]
pub enum Record {
    A(ARecord),
    B(BRecord),
    CDeclaration(CRecordDeclaration),
    CTurnpoint(CRecordTurnpoint),
    D(DRecord),
    E(ERecord),
    F(FRecord),
    G(GRecord),
    H(HRecord),
    I,
    J,
    K(KRecord),
    L(LRecord),
    Unrecognised(Part),
}

// What is said of a line: its record, or the refusal.
pub type Reading = Result<Record, Refusal>;

#[tactic(auto, unfolding(crate::specs::Record::whole))]
fn whole_line(line: &[u8]) -> Part
    ensures { result ≡ whole line.now }
{
    Part {
        start: 0,
        len: line.len(),
    }
}

#[tactic(auto, unfolding(crate::specs::Record::read_kind, text::specs::Res::bind))]
fn parse_a(line: &[u8]) -> Reading
    ensures { result ≡ read_kind Kind.A line.now }
{
    Ok(Record::A(ARecord::parse(line)?))
}

// A fix of plain digits, as nearly all are, the quick way; any other line by `BRecord::parse`.
fn parse_b(line: &[u8]) -> Reading
    ensures { result ≡ read_kind Kind.B line.now }
{
    if let Some(fix) = quick_fix(line) {
        return Ok(Record::B(fix));
    }
    Ok(Record::B(BRecord::parse(line)?))
}

fn parse_c(line: &[u8]) -> Reading
    ensures { result ≡ read_kind Kind.C line.now }
{
    if line.len() < 9 {
        return Err(Refusal::Syntax);
    }
    if is_turnpoint(line) {
        return Ok(Record::CTurnpoint(CRecordTurnpoint::parse(line)?));
    }
    Ok(Record::CDeclaration(CRecordDeclaration::parse(line)?))
}

#[tactic(auto, unfolding(crate::specs::Record::read_kind, text::specs::Res::bind))]
fn parse_d(line: &[u8]) -> Reading
    ensures { result ≡ read_kind Kind.D line.now }
{
    Ok(Record::D(DRecord::parse(line)?))
}

#[tactic(auto, unfolding(crate::specs::Record::read_kind, text::specs::Res::bind))]
fn parse_e(line: &[u8]) -> Reading
    ensures { result ≡ read_kind Kind.E line.now }
{
    Ok(Record::E(ERecord::parse(line)?))
}

#[tactic(auto, unfolding(crate::specs::Record::read_kind, text::specs::Res::bind))]
fn parse_f(line: &[u8]) -> Reading
    ensures { result ≡ read_kind Kind.F line.now }
{
    Ok(Record::F(FRecord::parse(line)?))
}

#[tactic(auto, unfolding(crate::specs::Record::read_kind, text::specs::Res::bind))]
fn parse_g(line: &[u8]) -> Reading
    ensures { result ≡ read_kind Kind.G line.now }
{
    Ok(Record::G(GRecord::parse(line)?))
}

#[tactic(auto, unfolding(crate::specs::Record::read_kind, text::specs::Res::bind))]
fn parse_h(line: &[u8]) -> Reading
    ensures { result ≡ read_kind Kind.H line.now }
{
    Ok(Record::H(HRecord::parse(line)?))
}

// An I or a J line, whose definitions are not kept; `Table::parse` hands them over.
#[tactic(auto, unfolding(text::specs::Res::bind, table::specs::Table::table_read))]
fn parse_table(line: &[u8], as_read: Record) -> Reading
    ensures { result ≡ bind (read_table line.now) (λ ds. ok as_read) }
{
    Table::parse(line)?;
    Ok(as_read)
}

#[tactic(auto, unfolding(crate::specs::Record::read_kind, text::specs::Res::bind))]
fn parse_k(line: &[u8]) -> Reading
    ensures { result ≡ read_kind Kind.K line.now }
{
    Ok(Record::K(KRecord::parse(line)?))
}

#[tactic(auto, unfolding(crate::specs::Record::read_kind, text::specs::Res::bind))]
fn parse_l(line: &[u8]) -> Reading
    ensures { result ≡ read_kind Kind.L line.now }
{
    Ok(Record::L(LRecord::parse(line)?))
}

impl Record {
    // Reads a line by its first byte.
    pub fn parse_line(line: &[u8]) -> Reading
        ensures { result ≡ read_line_of line.now }
    {
        if line.len() == 0 {
            return Err(Refusal::Syntax);
        }
        match line[0] {
            b'A' => parse_a(line),
            b'B' => parse_b(line),
            b'C' => parse_c(line),
            b'D' => parse_d(line),
            b'E' => parse_e(line),
            b'F' => parse_f(line),
            b'G' => parse_g(line),
            b'H' => parse_h(line),
            b'I' => parse_table(line, Record::I),
            b'J' => parse_table(line, Record::J),
            b'K' => parse_k(line),
            b'L' => parse_l(line),
            _ => Ok(Record::Unrecognised(whole_line(line))),
        }
    }

    // Its times, dates and positions are by the book; other kinds say yes.
    #[tactic(auto, unfolding(crate::specs::Record::record_book))]
    pub fn by_the_book(self) -> bool
        ensures { result ≡ record_book self }
    {
        match self {
            Record::B(b) => b.by_the_book(),
            Record::CDeclaration(task) => task.by_the_book(),
            Record::CTurnpoint(point) => point.by_the_book(),
            Record::E(e) => e.by_the_book(),
            Record::F(f) => f.by_the_book(),
            Record::K(k) => k.by_the_book(),
            _ => true,
        }
    }

    // The table of an I or a J line itself, which stands beside the record; of a refused line and of any other kind it
    // is empty, and nobody looks at it.
    #[tactic(auto, unfolding(crate::specs::Record::record_table, crate::specs::Record::table_left, table::specs::Table::table_read, text::specs::Res::bind))]
    pub fn table(self, line: &[u8]) -> Table
        ensures { result ≡ record_table self line.now }
    {
        match self {
            Record::I | Record::J => Table::parse(line).unwrap_or(Table::new()),
            _ => Table::new(),
        }
    }

    // The fix of a B line.
    #[tactic(auto, unfolding(crate::specs::Record::record_fix))]
    pub fn fix(self) -> Option<BRecord>
        ensures { result ≡ record_fix self }
    {
        match self {
            Record::B(fix) => Some(fix),
            _ => None,
        }
    }

    // 0, or 12, which is an answer too.
    #[tactic(auto, unfolding(crate::specs::Record::accepted_as))]
    pub fn number(self) -> u8
        ensures { result ≡ accepted_as self }
    {
        match self {
            Record::Unrecognised(_) => 12,
            _ => 0,
        }
    }
}

// The fix of an accepted B line: products that care for fixes alone ask here, and match over no other kind.
#[tactic(auto, unfolding(crate::specs::Record::answer_fix))]
pub fn fix_in(reading: Reading) -> Option<BRecord>
    ensures { result ≡ answer_fix reading }
{
    match reading {
        Ok(record) => record.fix(),
        Err(_) => None,
    }
}

// The paper's number of the answer.
#[tactic(auto, unfolding(crate::specs::Record::answered))]
pub fn answer_number(reading: Reading) -> u8
    ensures { result ≡ answered reading }
{
    match reading {
        Ok(record) => record.number(),
        Err(refusal) => refusal.number(),
    }
}
