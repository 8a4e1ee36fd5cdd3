// The first declaration of a log.
ghost use Rattle.std.specs.Prelude.{◌≡◌, drop};
ghost use Rattle.task_line.specs.Lines.{task_lines};
ghost use Rattle.task.specs.Sheet.{first_declaration, declared_in};

use task_line::{Kind, line_at};

// A declaration's count, and the place after its line.
#[derive(Clone, Copy)]
pub struct Declared {
    pub count: i8,
    pub next: usize,
}

// The first declaration from a place on.
pub(crate) fn find_declaration(log: &[u8], from: usize) -> Option<Declared>
    ensures { declared_in log.now result ≡ first_declaration (task_lines (drop from log.now)) }
{
    let mut place = from;
    // Each line says where the next one begins: no index is counted.
    while place < log.len() {
        let seen = line_at(log, place);
        let next = seen.next;
        if let Kind::Declaration(count) = seen.kind {
            return Some(Declared { count, next });
        }
        place = next;
    }
    None
}
