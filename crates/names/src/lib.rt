// The names that are asked for, from an argument on.
#![tactic(auto)]

ghost use Rattle.std.specs.Prelude.{◌≡◌, true, ◌≤◌, ◌<◌};
ghost use Rattle.names.specs.Names.{NameRead};

use files::output::write_all;
use files::say::write_number;
use files::system::{Sink, System};
use put::put_bytes;

// Name i, behind those before it. The rooms are fixed, since there is no heap.
fn read_name(sys: &System, first: usize, i: usize, names: &mut [u8]) -> bool
    requires { (first ≤ 4) × (i < 4096) }
    ensures { NameRead result i names.old names.new }
{
    let mut word = [0u8; 4];
    let Ok(3) = sys.arg(first + i, &mut word) else {
        return false;
    };
    put_bytes(names, 3 * i, &word[0..3]);
    true
}

// How many of so many arguments are names, up to the first that is none.
fn count_names(sys: &System, first: usize, count: usize, names: &mut [u8]) -> usize
    requires { (first ≤ 4) × (count ≤ 4096) }
{
    for i in 0..count {
        if !read_name(sys, first, i, names) {
            return i;
        }
    }
    count
}

// So many names; if they are too many or one is none, a sentence says so.
pub fn read_names(sys: &System, first: usize, count: usize, names: &mut [u8]) -> bool
    ensures { result ≡ true → count ≤ 4096 }
{
    if first > 4 {
        return false;
    }
    if count > 4096 {
        let _ = write_all(sys, Sink::Errors, b"tokelivo: more than 4096 names\n");
        return false;
    }
    let good = count_names(sys, first, count, names);
    if good < count {
        let _ = write_all(sys, Sink::Errors, b"tokelivo: name ");
        write_number(sys, Sink::Errors, good as u64 + 1);
        let _ = write_all(sys, Sink::Errors, b" is not three bytes long, as ENL is\n");
        return false;
    }
    true
}
