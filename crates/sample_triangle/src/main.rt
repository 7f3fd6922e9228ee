// Writes the triangle of docs/FORMAT.md and prints its bytes, in hexadecimal: a line for each chunk, and one for each vertex.
#![tactic(auto)]

ghost use Rattle.std.specs.Prelude.{◌≡◌, length};

use shared_words::Refusal;
use std::io;

fn print_line(rt: &impl Print, bytes: &[u8]) -> io::Result<()> {
    for b in bytes {
        print!(rt; "{b:02X}")?;
    }
    println!(rt)
}

// The six chunks, with the three vertices on lines of their own.
fn print_triangle(rt: &impl Print, bytes: &[u8]) -> io::Result<()>
    requires { length bytes.now ≡ 86 }
{
    print_line(rt, &bytes[0..6])?;
    print_line(rt, &bytes[6..12])?;
    print_line(rt, &bytes[12..20])?;
    print_line(rt, &bytes[20..26])?;
    print_line(rt, &bytes[26..34])?;
    print_line(rt, &bytes[34..46])?;
    print_line(rt, &bytes[46..58])?;
    print_line(rt, &bytes[58..70])?;
    print_line(rt, &bytes[70..86])
}

fn print_refusal(rt: &impl Print, r: Refusal) -> io::Result<()> {
    let number = shared_refusals::number(r);
    let place = shared_refusals::place(r);
    println!(rt; "refused {number} {place}")
}

fn main(rt: HostRuntime) -> io::Result<()> {
    let vertices = [0.0f32, 0.0, 0.0, 1.0, 0.0, 0.0, 0.0, 1.0, 0.0];
    let corners = [0u16, 1, 2];
    let mut out = [0u8; 86];
    match studio_write::write(b"A", &vertices, &corners, &mut out) {
        Ok(_) => print_triangle(&rt, &out),
        Err(r) => print_refusal(&rt, r),
    }
}
