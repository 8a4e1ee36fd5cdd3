// The system as a program of the desk has it: what it reads from and writes to, its words, and why the last call that
// failed did.
ghost use Rattle.std.specs.Prelude.{◌≡◌, length};
ghost use Rattle.std.specs.Io.{ReadsAtMost, WritesAtMost};

use crate::descriptor::write_whole;
use std::cell::Cell;
use std::env::{Env, FillError};
use std::fs::File;
use std::io;
use std::io::{IsTerminal, Read, Write};
use std::str::from_utf8;

// The numbers of errors, as Linux has them (errno).
const EIO: i32 = 5;

const EBADF: i32 = 9;

const EINVAL: i32 = 22;

const ENAMETOOLONG: i32 = 36;

const EILSEQ: i32 = 84;

#[derive(Drop)]
pub struct System {
    rt: HostRuntime,
    errno: Cell<i32>,
    is_input_closed: Cell<bool>,
}

// Standard input, or a file that is open.
#[derive(Drop)]
pub enum Source {
    Input,
    File(File),
}

// Nothing, standard output, standard error, or the descriptor of one digit that the program was started with.
#[derive(Clone, Copy)]
pub enum Sink {
    Nowhere,
    Output,
    Errors,
    Number(u8),
}

// Room for a word, as long as a file's name may be.
pub fn buffer() -> [u8; 4096]
    ensures { 4096 ≡ length result }
{
    [0; 4096]
}

impl System {
    pub fn new(rt: HostRuntime) -> System {
        System {
            rt,
            errno: Cell::new(0),
            is_input_closed: Cell::new(false),
        }
    }

    // Why the last call that failed did, or 0 where an argument was taken since.
    pub fn errno(&self) -> i32 {
        self.errno.get()
    }

    fn set_errno(&self, errno: i32) {
        self.errno.set(errno);
    }

    // A call that failed says why.
    fn failed(&self, why: io::Error) {
        self.set_errno(why.raw_os_error().unwrap_or(EIO));
    }

    // One call of `read`: how many bytes came.
    pub fn read(&self, from: &Source, buf: &mut [u8]) -> io::Result<usize>
        ensures { ReadsAtMost result buf.new }
    {
        let got = self.read_from(from, buf);
        if let Err(why) = got {
            self.failed(why);
        }
        got
    }

    fn read_from(&self, from: &Source, buf: &mut [u8]) -> io::Result<usize>
        ensures { ReadsAtMost result buf.new }
    {
        match from {
            Source::Input => {
                if self.is_input_closed.get() {
                    return Err(io::Error::from_raw_os_error(EBADF));
                }
                self.rt.stdin().read(buf)
            }
            Source::File(file) => {
                let mut file: &File = file;
                file.read(buf)
            }
        }
    }

    // One call of `write`: how many bytes went.
    pub fn write(&self, to: Sink, text: &[u8]) -> io::Result<usize>
        ensures { WritesAtMost result text.now }
    {
        let put = self.write_to(to, text);
        if let Err(why) = put {
            self.failed(why);
        }
        put
    }

    fn write_to(&self, to: Sink, text: &[u8]) -> io::Result<usize>
        ensures { WritesAtMost result text.now }
    {
        match to {
            Sink::Nowhere => Err(io::Error::from_raw_os_error(EBADF)),
            Sink::Output => self.rt.stdout().write(text),
            Sink::Errors => self.rt.stderr().write(text),
            Sink::Number(n) => self.write_to_number(n, text),
        }
    }

    // All of it to the descriptor of one digit, which std has no handle of; or nothing is said of why it failed.
    fn write_to_number(&self, n: u8, text: &[u8]) -> io::Result<usize>
        ensures { WritesAtMost result text.now }
    {
        if write_whole(n, text) {
            return Ok(text.len());
        }
        Err(io::Error::from_raw_os_error(EBADF))
    }

    // The file with this name, or nothing. A name is UTF-8.
    pub fn open(&self, file: &[u8]) -> Option<Source> {
        let Ok(path) = from_utf8(file) else {
            self.set_errno(EILSEQ);
            return None;
        };
        match File::open(&self.rt, path) {
            Ok(opened) => Some(Source::File(opened)),
            Err(why) => {
                self.failed(why);
                None
            }
        }
    }

    // Closes it. From standard input nothing can be read after that.
    pub fn close(&self, from: Source) {
        if let Source::Input = from {
            self.is_input_closed.set(true);
        }
    }

    // What is written there goes to a terminal.
    pub fn is_terminal(&self, to: Sink) -> bool {
        match to {
            Sink::Output => self.rt.stdout().is_terminal(),
            Sink::Errors => self.rt.stderr().is_terminal(),
            _ => false,
        }
    }

    // How many words the program was started with, its name among them.
    pub fn arg_count(&self) -> usize {
        let mut word = [0u8; 1];
        for i in 0..usize::MAX {
            if let Err(FillError::NotPresent) = self.rt.arg(i, &mut word) {
                return i;
            }
        }
        usize::MAX
    }

    // Puts a word at the front of the buffer, and returns its length. A word that was taken has no error.
    pub fn arg(&self, i: usize, buf: &mut [u8]) -> Result<usize, FillError>
        ensures { ReadsAtMost result buf.new }
    {
        let got = self.rt.arg(i, buf);
        self.set_errno(match got {
            Ok(_) => 0,
            Err(FillError::NotPresent) => EINVAL,
            Err(FillError::TooLong) => ENAMETOOLONG,
        });
        got
    }
}
