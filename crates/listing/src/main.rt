// The listing program of docs/FORMAT.md: what standard input holds, chunk by chunk. No contract can say what is written to the
// output; it is the bytes that `listing_text::answer` makes, whose contract has them.
#![tactic(auto)]

use std::io;

fn main(rt: HostRuntime) -> io::Result<()> {
    let mut buffer = [0u8; 65536];
    let mut text = [0u8; listing_text::ROOM];
    let input = listing_input::read(&mut rt.stdin(), &mut buffer);
    let n = listing_text::answer(&buffer, input, &mut text);
    if n == 0 {
        eprintln!(rt; "listing: the input could not be read")?;
    }
    rt.write_all(&text[..n])
}
