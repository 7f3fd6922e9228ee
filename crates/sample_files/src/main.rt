// Runs the bench samples P1 to P12 of docs/FORMAT.md, and two figures of the greatest length whose chunks nearly all stand
// under 3D3D, and prints a line for each answer.
#![tactic(auto)]

ghost use Rattle.std.specs.Prelude.{◌+◌, ◌≤◌};

use shared_words::Refusal;
use std::io;
use studio_rules::Counts;

// The bytes of the longest file that is read.
const LONGEST: usize = 1048576;

// The sample's name, and the refusal or the three byte counts.
fn print_answer(rt: &impl Print, name: &str, answer: Result<Counts, Refusal>) -> io::Result<()> {
    match answer {
        Err(r) => {
            let number = shared_refusals::number(r);
            let place = shared_refusals::place(r);
            print!(rt; "{name} refused {number} {place}")
        }
        Ok(counts) => {
            let headers = counts.headers;
            let own = counts.own;
            let skipped = counts.skipped;
            print!(rt; "{name} accepted {headers} {own} {skipped}")
        }
    }
}

fn show(rt: &impl Print, name: &str, answer: Result<Counts, Refusal>) -> io::Result<()> {
    print_answer(rt, name, answer)?;
    println!(rt)
}

// P1 to P7: no mesh.
fn bare_samples(rt: &impl Print) -> io::Result<()> {
    show(rt, "P1", studio_check::check(b""))?;
    show(rt, "P2", studio_check::check(b"\x4D\x4D\x05\x00\x00\x00"))?;
    show(rt, "P3", studio_check::check(b"\x4D\x4D\x06\x00\x00\x00"))?;
    show(
        rt,
        "P4",
        studio_check::check(b"\x4D\x4D\x0C\x00\x00\x00\x3D\x3D\x06\x00\x00\x00"),
    )?;
    show(
        rt,
        "P5",
        studio_check::check(b"\x4D\x4D\x0C\x00\x00\x00\x3D\x3D\x06\x00\x00\x00\x00"),
    )?;
    show(
        rt,
        "P6",
        studio_check::check(b"\x4D\x4D\x0D\x00\x00\x00\x3D\x3D\x06\x00\x00\x00\x00"),
    )?;
    show(
        rt,
        "P7",
        studio_check::check(b"\x4D\x4D\x0C\x00\x00\x00\x3D\x3D\x07\x00\x00\x00"),
    )
}

fn triangle() -> [u8; 86] {
    *b"\x4D\x4D\x56\x00\x00\x00\
       \x3D\x3D\x50\x00\x00\x00\
       \x00\x40\x4A\x00\x00\x00\x41\x00\
       \x00\x41\x42\x00\x00\x00\
       \x10\x41\x2C\x00\x00\x00\x03\x00\
       \x00\x00\x00\x00\x00\x00\x00\x00\x00\x00\x00\x00\
       \x00\x00\x80\x3F\x00\x00\x00\x00\x00\x00\x00\x00\
       \x00\x00\x00\x00\x00\x00\x80\x3F\x00\x00\x00\x00\
       \x20\x41\x10\x00\x00\x00\x01\x00\
       \x00\x00\x01\x00\x02\x00\x00\x00"
}

// The triangle with a chunk 8123 of ten bytes before its mesh. Inside that chunk stands what looks like a 4110.
fn triangle_and_private() -> [u8; 96] {
    *b"\x4D\x4D\x60\x00\x00\x00\
       \x3D\x3D\x5A\x00\x00\x00\
       \x00\x40\x54\x00\x00\x00\x41\x00\
       \x23\x81\x0A\x00\x00\x00\x10\x41\x06\x00\
       \x00\x41\x42\x00\x00\x00\
       \x10\x41\x2C\x00\x00\x00\x03\x00\
       \x00\x00\x00\x00\x00\x00\x00\x00\x00\x00\x00\x00\
       \x00\x00\x80\x3F\x00\x00\x00\x00\x00\x00\x00\x00\
       \x00\x00\x00\x00\x00\x00\x80\x3F\x00\x00\x00\x00\
       \x20\x41\x10\x00\x00\x00\x01\x00\
       \x00\x00\x01\x00\x02\x00\x00\x00"
}

// P8 to P10: the triangle, then its last corner 3, then its vertex count 4.
fn triangle_samples(rt: &impl Print) -> io::Result<()> {
    let p8 = triangle();
    let mut p9 = triangle();
    p9[82] = 3;
    let mut p10 = triangle();
    p10[32] = 4;
    show(rt, "P8", studio_check::check(&p8))?;
    show(rt, "P9", studio_check::check(&p9))?;
    show(rt, "P10", studio_check::check(&p10))
}

// P11 and P12: the list. A row of 41 numbers holds five records and a part of a sixth; the offset of the fourth record is
// number 22.
fn list_samples(rt: &impl Print) -> io::Result<()> {
    let p11 = triangle();
    let mut small = [0u32; 41];
    show(rt, "P11", studio_list::list(&p11, &mut small))?;
    let p12 = triangle_and_private();
    let mut row = [0u32; 42];
    print_answer(rt, "P12", studio_list::list(&p12, &mut row))?;
    let at = row[22];
    println!(rt; " mesh at {at}")
}

fn put_header(file: &mut [u8; LONGEST], at: usize, header: &[u8; 6])
    requires { at + 6 ≤ 1048576 }
{
    file[at..at + 6].copy_from_slice(header);
}

// The longest figure allowed: 4D4D, in it 3D3D, in it 174,759 chunks that are a header only and a chunk 8123 of ten bytes.
fn fill_figure(file: &mut [u8; LONGEST], child: &[u8; 6]) {
    put_header(file, 0, b"\x4D\x4D\x00\x00\x10\x00");
    put_header(file, 6, b"\x3D\x3D\xFA\xFF\x0F\x00");
    for i in 0..174759 {
        put_header(file, 12 + 6 * i, child);
    }
    put_header(file, 1048566, b"\x23\x81\x0A\x00\x00\x00");
}

// The answer to a long figure, and how many records it has.
fn show_counts(rt: &impl Print, name: &str, file: &[u8; LONGEST]) -> io::Result<()> {
    let answer = studio_check::check(file);
    print_answer(rt, name, answer)?;
    if let Ok(counts) = answer {
        let records = counts.records;
        print!(rt; " records {records}")?;
    }
    println!(rt)
}

fn show_long(rt: &impl Print, name: &str, child: &[u8; 6]) -> io::Result<()> {
    let mut file = [0u8; LONGEST];
    fill_figure(&mut file, child);
    show_counts(rt, name, &file)
}

fn main(rt: HostRuntime) -> io::Result<()> {
    bare_samples(&rt)?;
    triangle_samples(&rt)?;
    list_samples(&rt)?;
    show_long(&rt, "unlisted", b"\x23\x81\x06\x00\x00\x00")?;
    show_long(&rt, "known", b"\x70\x14\x06\x00\x00\x00")
}
