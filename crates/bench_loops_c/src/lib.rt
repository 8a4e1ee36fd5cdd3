// The loops of bench_loops as C calls them: each has the contract of the one it calls.
#![tactic(auto)]

ghost use Rattle.std.specs.Prelude.{◌≡◌};
ghost use Rattle.bench_loops.specs.Timed.{read_sum, report_sum, look_up_sum, printed_out};
ghost use Rattle.bench_loops.specs.Moments.{index_place, moment_sum};

// Lines cut and read, the table left alone.
#[unsafe(no_mangle)]
pub extern "C" fn timed_read(log: &[u8]) -> u64
    ensures { result ≡ read_sum log.now }
{
    bench_loops::timed_read(log)
}

// The same by steps of a walk, which carries the table along.
#[unsafe(no_mangle)]
pub extern "C" fn timed_step(log: &[u8]) -> u64
    ensures { result ≡ read_sum log.now }
{
    bench_loops::timed_step(log)
}

// A walk to its end, which keeps tables and report: the report's figures.
#[unsafe(no_mangle)]
pub extern "C" fn timed_walk(log: &[u8]) -> u64
    ensures { result ≡ report_sum log.now }
{
    bench_loops::timed_walk(log)
}

// Lines cut and read, and on each fix the value of a name, by the table in force.
#[unsafe(no_mangle)]
pub extern "C" fn timed_lookup(log: &[u8], a: u8, b: u8, c: u8) -> u64
    ensures { result ≡ look_up_sum (record { 0 = a; 1 = b; 2 = c }) log.now }
{
    bench_loops::timed_lookup(log, a, b, c)
}

// Every record printed again, each from the start of the lent bytes.
#[unsafe(no_mangle)]
pub extern "C" fn timed_print(log: &[u8], buf: &mut [u8]) -> u64
    ensures { printed_out log.now buf.old ≡ record { sum = result; bytes = buf.new } }
{
    bench_loops::timed_print(log, buf)
}

// The index of a log: what it holds for an hour.
#[unsafe(no_mangle)]
pub extern "C" fn timed_index(log: &[u8], hours: u8) -> u64
    ensures { result ≡ index_place log.now hours }
{
    bench_loops::moments::timed_index(log, hours)
}

// The same, and a question for each minute of the hour.
#[unsafe(no_mangle)]
pub extern "C" fn timed_moments(log: &[u8], hours: u8, seconds: u8) -> u64
    ensures { result ≡ moment_sum 60 log.now hours seconds }
{
    bench_loops::moments::timed_moments(log, hours, seconds)
}

// The same questions with no index.
#[unsafe(no_mangle)]
pub extern "C" fn timed_walks(log: &[u8], hours: u8, seconds: u8) -> u64
    ensures { result ≡ moment_sum 60 log.now hours seconds }
{
    bench_loops::moments::timed_walks(log, hours, seconds)
}
