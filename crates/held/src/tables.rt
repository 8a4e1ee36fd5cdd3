// The tables of a walk, one for each letter that sets one: I lines name columns of B lines, J lines those of K lines.
ghost use Rattle.std.specs.Prelude.{◌≡◌};
ghost use Rattle.held.specs.Tables.{no_tables, tables_after};

use crate::Held;
use text::line::begins;

#[derive(Clone, Copy)]
pub struct Tables {
    pub i: Held,
    pub j: Held,
}

impl Tables {
    // No table of either letter.
    #[tactic(auto, unfolding(crate::specs::Tables::no_tables))]
    pub fn new() -> Tables
        ensures { result ≡ no_tables }
    {
        Tables {
            i: Held::new(),
            j: Held::new(),
        }
    }

    // What is held after a line: I lines set or spoil the one table, J lines the other.
    pub fn after(self, line: &[u8]) -> Tables
        ensures { result ≡ tables_after self line.now }
    {
        if begins(b'I', line) {
            return Tables {
                i: Held::set_by(line),
                j: self.j,
            };
        }
        if begins(b'J', line) {
            return Tables {
                i: self.i,
                j: Held::set_by(line),
            };
        }
        self
    }
}
