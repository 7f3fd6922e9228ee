// Text put into a lent buffer: each function puts it at a position of out, and answers the position behind it. No
// contract can say what a program writes to its output, so what is printed is made here first, as bytes.
#![tactic(auto)]

ghost use Rattle.std.specs.Prelude.{◌≡◌, ◌+◌, ◌<◌, ◌≤◌, length};
ghost use Rattle.shared_numbers.specs.Put.{Put};
ghost use Rattle.listing_printing.specs.Text.{glyph, decimal, four_digits};

use shared_numbers::put_byte;

// The digit of a number below 16, with capitals.
fn digit(d: usize) -> u8
    requires { d < 16 }
    ensures { result ≡ glyph d }
{
    if d < 10 { 48 + d as u8 } else { 55 + d as u8 }
}

// A text that is there already.
pub fn put_text(text: &[u8], at: usize, out: &mut [u8]) -> usize
    requires { at + length text.now ≤ length out.old }
    ensures { Put out.old at text.now out.new result }
{
    let end = at + text.len();
    out[at..end].copy_from_slice(text);
    end
}

// A number in decimal. Twenty digits are enough for any.
pub fn put_decimal(n: usize, at: usize, out: &mut [u8]) -> usize
    requires { at + 20 ≤ length out.old }
    ensures text { Put out.old at (decimal n) out.new result }
    ensures within { result ≤ at + 20 }
{
    if n < 10 {
        return put_byte(digit(n), at, out);
    }
    let last = put_decimal(n / 10, at, out);
    put_byte(digit(n % 10), last, out)
}

// The last four digits of a number in hexadecimal, with capitals.
pub fn put_four_digits(n: usize, at: usize, out: &mut [u8]) -> usize
    requires { at + 4 ≤ length out.old }
    ensures { Put out.old at (four_digits n) out.new result }
{
    let second = put_byte(digit(n / 4096 % 16), at, out);
    let third = put_byte(digit(n / 256 % 16), second, out);
    let fourth = put_byte(digit(n / 16 % 16), third, out);
    put_byte(digit(n % 16), fourth, out)
}
