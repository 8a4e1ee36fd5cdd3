// Writing to a descriptor by its number, for which std has no handle.
use io::write_all;

// All of a text was written.
pub(crate) fn write_whole(n: u8, text: &[u8]) -> bool {
    write_all(n as i32, text)
}
