// The reading of an input into a lent buffer.
#![tactic(auto)]

ghost use Rattle.std.specs.Prelude.{◌≤◌, length};
ghost use Rattle.listing_input.specs.Within.{Within};

use std::io::Read;

// Why an input was not read whole: it is longer than the buffer, or a read failed.
#[derive(Clone, Copy)]
pub enum Unread {
    Longer,
    Failed,
}

// Reads until the buffer is full, the input ends or a read fails. Answers how many bytes stand at the buffer's start.
fn read_full<R: Read>(reader: &mut R, buffer: &mut [u8]) -> usize
    ensures { result ≤ length buffer.new }
{
    let mut n = 0;
    while n < buffer.len() {
        match reader.read(&mut buffer[n..]) {
            Ok(0) | Err(_) => return n,
            Ok(got) => n += got,
        }
    }
    n
}

// Reads an input until it ends or the buffer is full, and answers its size; it then asks for one byte more, which tells an end from a failure.
// No contract can say which bytes a file gives, nor which answer is given; the bytes of a whole input are in the buffer.
pub fn read<R: Read>(reader: &mut R, buffer: &mut [u8]) -> Result<usize, Unread>
    ensures { Within buffer.new result }
{
    let n = read_full(reader, buffer);
    let mut next = [0u8; 1];
    match reader.read(&mut next) {
        Ok(0) => Ok(n),
        Ok(_) if n == buffer.len() => Err(Unread::Longer),
        _ => Err(Unread::Failed),
    }
}
