// What the lines of one letter leave in force, a table of definitions or none, and lookup by name in it.
#![tactic(auto)]

pub mod tables;

ghost use Rattle.std.specs.Prelude.{◌≡◌, ◌≤◌};
ghost use Rattle.part.specs.Part.{shown, Shows};
ghost use Rattle.table.specs.Table.{read_table, defs_of};
ghost use Rattle.held.specs.Held.{no_table, set_by_of, held_after, first_named_of, define, look_up};

use extension::Extension;
use field::Mnemonic;
use part::Part;
use table::Table;
use text::line::begins;
use text::refusal::Refusal;

// No line of the letter so far; the last one was refused; or its table is in force.
#[derive(Clone, Copy)]
pub enum Held {
    Never,
    Spoiled,
    Set(Table),
}

// The first definition of that name among those that count.
fn first_named(table: Table, name: Mnemonic) -> Result<Extension, Refusal>
    requires { table.count ≤ 99 }
    ensures { result ≡ first_named_of name (defs_of table) }
{
    let n = table.count as usize;
    for def in &table.defs[..n] {
        if def.mnemonic == name {
            return Ok(*def);
        }
    }
    Err(Refusal::NotDefined)
}

impl Held {
    // No line of the letter so far.
    pub fn new() -> Held
        ensures { result ≡ no_table }
    {
        Held::Never
    }

    // What a line of the letter leaves: its table, or where it is refused none, and the mark of that.
    pub fn set_by(line: &[u8]) -> Held
        ensures { result ≡ set_by_of (read_table line.now) }
    {
        match Table::parse(line) {
            Ok(table) => Held::Set(table),
            Err(_no) => Held::Spoiled,
        }
    }

    // What is held after a line: one that begins with the letter sets or spoils the table, and no other touches it.
    pub fn after(self, letter: u8, line: &[u8]) -> Held
        ensures { result ≡ held_after letter self line.now }
    {
        if begins(letter, line) {
            return Held::set_by(line);
        }
        self
    }

    // The definition in force of that name.
    pub fn define(self, name: Mnemonic) -> Result<Extension, Refusal>
        ensures { result ≡ define self name }
    {
        match self {
            Held::Never => Err(Refusal::NoTable),
            Held::Spoiled => Err(Refusal::SpoiledTable),
            Held::Set(table) => {
                if 99 < table.count {
                    return Err(Refusal::NotDefined);
                }
                first_named(table, name)
            }
        }
    }

    // Where the value of that name stands in a line with `base` fixed columns and this rest.
    pub fn find(self, base: usize, rest: Part, name: Mnemonic, line: &[u8]) -> Result<Part, Refusal>
        ensures { result ≡ look_up base rest self name line.now }
    {
        self.define(name)?.find(base, rest, line)
    }

    // The value itself, as a part of the caller's own line.
    pub fn get(self, base: usize, rest: Part, name: Mnemonic, line: &[u8]) -> &[u8]
        ensures { Shows line.entry (shown (look_up base rest self name line.now)) result }
    {
        match self.define(name) {
            Ok(extension) => extension.get_extension(base, rest, line),
            Err(_no) => &line[0..0],
        }
    }
}
