// The line that an event of a season file prints (document 01, "The season program"). Each private function that puts a text into the line takes where the
// text begins and returns where it ends.
// (By hand and not by write!: `LinePost` promises the bytes and the count of a line in a lent buffer, and of a lent slice std's Write for write! promises how many
// bytes were written, not which; and the definition of `decimal` is the document's own.)
// (No struct of line and at: no plainer, as `TextAt` tells the line before and after and both places. No Cursor: its write answers a Result, for a case that a line with
// room does not have.)
#![tactic(auto)]

ghost use Rattle.std.specs.Prelude.{◌≡◌, [], ◌∷◌, ◌+◌, ◌*◌, ◌≤◌, ◌<◌, length, drop};
ghost use Rattle.season_lines.specs.Lines.{decimal, hex_digit, hex, message_field, line_of, LinePost};
ghost use Rattle.season_lines.specs.Writing.{TextAt};

// Writes number, kind and answer in decimal and the message in hexadecimal, with single spaces between them and a line end, and returns the line's length. Where
// the buffer may be too short nothing is written and 0 is returned.
// (0 and no Option: `LinePost` promises it, and a turn that prints nothing has written = 0 too, so each caller would turn None into 0 again.)
// (Numbers, as the line prints them: an answer is a Refusal's or a FileFault's number, or 0, and the kind of a fault may be a byte that is no Kind.)
pub fn write_line(line: &mut [u8], number: usize, kind: u8, answer: u32, message: &[u8]) -> usize
    ensures { LinePost number kind answer message.now line.old result line.new }
{
    if line.len() < 64 {
        return 0;
    }
    if (line.len() - 64) / 2 < message.len() {
        return 0;
    }
    put_line(line, number, kind, answer, message)
}

// The same in a buffer that is long enough.
fn put_line(line: &mut [u8], number: usize, kind: u8, answer: u32, message: &[u8]) -> usize
    requires { 64 + 2 * length message.now ≤ length line.old }
    ensures { TextAt (line_of number kind answer message.now) 0 line.old result line.new }
{
    let mut at = put_number(line, 0, number);
    at = put_field(line, at, usize::from(kind));
    at = put_field(line, at, answer as usize);
    at = put_message(line, at, message);
    put_byte(line, at, 10)
}

// A space and a number.
fn put_field(line: &mut [u8], at: usize, number: usize) -> usize
    requires { at + 21 ≤ length line.old }
    ensures { TextAt (32 ∷ decimal number) at line.old result line.new }
{
    let start = put_byte(line, at, 32);
    put_number(line, start, number)
}

// One byte.
fn put_byte(line: &mut [u8], at: usize, x: u8) -> usize
    requires { at < length line.old }
    ensures { TextAt (x ∷ []) at line.old result line.new }
{
    line[at] = x;
    at + 1
}

// A number in decimal.
fn put_number(line: &mut [u8], at: usize, number: usize) -> usize
    requires { at + 20 ≤ length line.old }
    ensures { TextAt (decimal number) at line.old result line.new }
{
    let mut digits = [0u8; 20];
    let start = last_digits(number, &mut digits);
    put_bytes(line, at, &digits[start..])
}

// Writes the digits of the number at the end of the buffer, the last one first, and returns where they begin.
fn last_digits(number: usize, digits: &mut [u8]) -> usize
    requires { length digits.old ≡ 20 }
    ensures { (result ≤ 20) × (drop result digits.new ≡ decimal number) }
{
    let mut rest = number;
    // by a range: the invariant needs the place, and of a reversed iterator it has only what it gave
    for start in (0..20).rev() {
        digits[start] = 48 + (rest % 10) as u8;
        rest /= 10;
        if rest == 0 {
            return start;
        }
    }
    0
}

// A text that is there already.
fn put_bytes(line: &mut [u8], at: usize, text: &[u8]) -> usize
    requires { at + length text.now ≤ length line.old }
    ensures { TextAt text.now at line.old result line.new }
{
    let end = at + text.len();
    line[at..end].copy_from_slice(text);
    end
}

// A space and the message, or nothing for an empty one.
fn put_message(line: &mut [u8], at: usize, message: &[u8]) -> usize
    requires { at + 1 + 2 * length message.now ≤ length line.old }
    ensures { TextAt (message_field message.now) at line.old result line.new }
{
    if message.is_empty() {
        return at;
    }
    let start = put_byte(line, at, 32);
    put_hex(line, start, message)
}

// The bytes of the message, two digits each.
fn put_hex(line: &mut [u8], at: usize, message: &[u8]) -> usize
    requires { at + 2 * length message.now ≤ length line.old }
    ensures { TextAt (hex message.now) at line.old result line.new }
{
    // by an index: what goes through chunks_exact_mut, no proof knows afterwards
    for (i, x) in message.iter().enumerate() {
        let next = at + 2 * i;
        line[next] = hex_digit(x / 16);
        line[next + 1] = hex_digit(x % 16);
    }
    at + 2 * message.len()
}

// The digit of a number below 16, in lower case.
fn hex_digit(d: u8) -> u8
    requires { d < 16 }
    ensures { result ≡ hex_digit d }
{
    if d < 10 {
        return 48 + d;
    }
    87 + d
}
