// Answers the cases of standard input, a line for each. docs/CASES.md describes both formats.
#![tactic(auto)]

ghost use Rattle.std.specs.Prelude.{◌≡◌, ◌<◌, ◌≤◌, ◌^◌, ◌/◌, ◌%◌, [], ◌∷◌, false, IfOk, IsTrue, IfSome, OnOk, length, take};
ghost use Rattle.std.specs.Int.{to_be_bytes, w64};
ghost use Rattle.std.specs.Io.KnownBytes.{Appends, Consumes};

use engine::{Answer, Listed};
use filter::Filter;
use rows::Table;
use std::io;
use std::io::{Read, Write};
use table::Refusal;
use value::Value;

fn print_word<W: Write>(out: &mut W, word: &[u8]) -> io::Result<()>
    ensures { OnOk result (Appends (W.contents out.old) (W.contents out.new) word.now) }
{
    out.write_all(word)
}

fn print_count<W: Write>(out: &mut W, word: &[u8], n: u64) -> io::Result<()> {
    print_word(out, word)?;
    write!(out, "{n}")
}

fn print_line<W: Write>(out: &mut W, word: &[u8], n: u64) -> io::Result<()> {
    print_count(out, word, n)?;
    print_word(out, b"\n")
}

// ---- last lines: of an input that isn't as docs/CASES.md has it
fn truncated<W: Write>(out: &mut W) -> io::Result<bool>
    ensures { IfOk result (λ b. b ≡ false) }
{
    print_word(out, b"TRUNCATED\n")?;
    Ok(false)
}

fn too_long<W: Write>(out: &mut W, n: usize) -> io::Result<bool>
    ensures { IfOk result (λ b. b ≡ false) }
{
    print_line(out, b"TOO LONG ", n as u64)?;
    Ok(false)
}

fn unknown<W: Write>(out: &mut W, kind: u8) -> io::Result<bool>
    ensures { IfOk result (λ b. b ≡ false) }
{
    print_line(out, b"UNKNOWN ", kind as u64)?;
    Ok(false)
}

// ---- reading; with false or None a last line was printed
// Fills buf with what the input loses.
fn read_whole<R: Read, W: Write>(input: &mut R, out: &mut W, buf: &mut [u8]) -> io::Result<bool>
    ensures { IfOk result (λ b. IsTrue b → Consumes (R.remaining input.old) (R.remaining input.new) buf.new) }
{
    if reading::read_full(input, buf)? < buf.len() {
        return truncated(out);
    }
    Ok(true)
}

// One octet.
fn read_octet<R: Read, W: Write>(input: &mut R, out: &mut W) -> io::Result<Option<usize>>
    ensures fits { IfOk result (λ m. IfSome m (λ k. k < 2 ^ 8)) }
    ensures bytes { IfOk result (λ m. IfSome m (λ k. Consumes (R.remaining input.old) (R.remaining input.new) (k ∷ []))) }
{
    let mut head = [0u8; 1];
    if !read_whole(input, out, &mut head)? {
        return Ok(None);
    }
    Ok(Some(head[0] as usize))
}

// A length: two octets, most significant first.
fn read_length<R: Read, W: Write>(input: &mut R, out: &mut W) -> io::Result<Option<usize>>
    ensures fits { IfOk result (λ m. IfSome m (λ k. k < 2 ^ 16)) }
    ensures bytes { IfOk result (λ m. IfSome m (λ k. Consumes (R.remaining input.old) (R.remaining input.new) (k / 256 ∷ k % 256 ∷ []))) }
{
    let mut head = [0u8; 2];
    if !read_whole(input, out, &mut head)? {
        return Ok(None);
    }
    Ok(Some(head[0] as usize * 256 + head[1] as usize))
}

// Eight octets as a number, most significant first.
fn number_of(head: [u8; 8]) -> u64
    ensures { to_be_bytes w64 result ≡ head }
{
    u64::from_be_bytes(head)
}

// A number: eight octets, most significant first.
fn read_number<R: Read, W: Write>(input: &mut R, out: &mut W) -> io::Result<Option<usize>>
    ensures { IfOk result (λ m. IfSome m (λ k. Consumes (R.remaining input.old) (R.remaining input.new) (to_be_bytes w64 k))) }
{
    let mut head = [0u8; 8];
    if !read_whole(input, out, &mut head)? {
        return Ok(None);
    }
    Ok(Some(number_of(head) as usize))
}

// So many octets to the start of buf.
fn read_part<R: Read, W: Write>(
    input: &mut R,
    out: &mut W,
    buf: &mut [u8],
    n: usize,
) -> io::Result<Option<usize>>
    ensures number { IfOk result (λ m. IfSome m (λ k. k ≡ n)) }
    ensures fits { IfOk result (λ m. IfSome m (λ k. k ≤ length buf.new)) }
    ensures bytes { IfOk result (λ m. IfSome m (λ k. Consumes (R.remaining input.old) (R.remaining input.new) (take k buf.new))) }
{
    if buf.len() < n {
        too_long(out, n)?;
        return Ok(None);
    }
    if !read_whole(input, out, &mut buf[..n])? {
        return Ok(None);
    }
    Ok(Some(n))
}

// An input of octets: a length, and so many octets.
fn read_input<R: Read, W: Write>(
    input: &mut R,
    out: &mut W,
    buf: &mut [u8],
) -> io::Result<Option<usize>>
    ensures fits { IfOk result (λ m. IfSome m (λ k. k ≤ length buf.new)) }
    ensures bytes { IfOk result (λ m. IfSome m (λ k. Consumes (R.remaining input.old) (R.remaining input.new) (k / 256 ∷ k % 256 ∷ take k buf.new))) }
{
    let Some(n) = read_length(input, out)? else {
        return Ok(None);
    };
    read_part(input, out, buf, n)
}

// ---- cases and questions; with false a last line was printed
fn table_case<R: Read, W: Write>(input: &mut R, out: &mut W) -> io::Result<bool> {
    let mut table = [0u8; Table::MAX_BYTES + 1];
    let Some(t) = read_input(input, out, &mut table)? else {
        return Ok(false);
    };
    match table::check_table(octets::part(&table, 0, t)) {
        Ok(admitted) => print_line(out, b"admitted ", admitted.rows as u64)?,
        Err(r) => print_line(out, b"refused ", r.number() as u64)?,
    }
    Ok(true)
}

fn value_case<R: Read, W: Write>(input: &mut R, out: &mut W) -> io::Result<bool> {
    let mut table = [0u8; Table::MAX_BYTES + 1];
    let mut value = [0u8; Value::MAX_BYTES + 1];
    let Some(t) = read_input(input, out, &mut table)? else {
        return Ok(false);
    };
    let Some(v) = read_input(input, out, &mut value)? else {
        return Ok(false);
    };
    match value::check_value(octets::part(&table, 0, t), octets::part(&value, 0, v)) {
        Ok(()) => print_word(out, b"good\n")?,
        Err(r) => print_line(out, b"refused ", r.number() as u64)?,
    }
    Ok(true)
}

// A hexadecimal digit.
fn digit(n: u8) -> u8 {
    match n {
        0..=9 => b'0' + n,
        10..=15 => b'A' - 10 + n,
        _ => b'?',
    }
}

// Octets as hexadecimal digits: as many octets as a value may have.
fn print_octets<W: Write>(out: &mut W, part: &[u8]) -> io::Result<()> {
    let mut text = [0u8; Value::MAX_BYTES * 2];
    let n = part.len().min(Value::MAX_BYTES);
    for i in 0..n {
        text[i * 2] = digit(part[i] >> 4);
        text[i * 2 + 1] = digit(part[i] & 15);
    }
    print_word(out, octets::part(&text, 0, n * 2))
}

fn part_case<R: Read, W: Write>(input: &mut R, out: &mut W) -> io::Result<bool> {
    let mut value = [0u8; Value::MAX_BYTES + 1];
    let Some(v) = read_input(input, out, &mut value)? else {
        return Ok(false);
    };
    let Some(place) = read_number(input, out)? else {
        return Ok(false);
    };
    let Some(length) = read_number(input, out)? else {
        return Ok(false);
    };
    match value::part(octets::part(&value, 0, v), place, length) {
        Ok(part) => {
            print_word(out, b"part ")?;
            print_octets(out, part)?;
            print_word(out, b"\n")?;
        }
        Err(r) => print_line(out, b"refused ", r.number() as u64)?,
    }
    Ok(true)
}

fn print_listed<W: Write>(out: &mut W, listed: Result<Listed, Refusal>) -> io::Result<()> {
    match listed {
        Ok(l) => print_count(out, b"listed ", l.values as u64),
        Err(r) => print_count(out, b"refused ", r.number() as u64),
    }
}

// The numbers of a room after a listing.
fn print_room<W: Write>(out: &mut W, room: &[u64]) -> io::Result<()> {
    print_word(out, b":")?;
    for n in room {
        print_count(out, b" ", *n)?;
    }
    print_word(out, b"\n")
}

fn list_all<W: Write>(
    out: &mut W,
    table: &[u8],
    value: &[u8],
    given: bool,
    reference: &[u8],
    defaults: bool,
    room: &mut [u64],
) -> io::Result<()> {
    let listed = engine::list(table, value, given, reference, defaults, room);
    print_listed(out, listed)?;
    print_room(out, room)
}

// A listing into the first n numbers of room.
fn list_into<W: Write>(
    out: &mut W,
    table: &[u8],
    value: &[u8],
    given: bool,
    reference: &[u8],
    defaults: bool,
    n: usize,
    room: &mut [u64],
) -> io::Result<bool> {
    if room.len() < n {
        return too_long(out, n);
    }
    list_all(
        out,
        table,
        value,
        given,
        reference,
        defaults,
        &mut room[..n],
    )?;
    Ok(true)
}

// A listing. Before it each number of the room is 9999, which no listing writes.
fn list_case<R: Read, W: Write>(
    input: &mut R,
    out: &mut W,
    table: &[u8],
    value: &[u8],
) -> io::Result<bool> {
    let mut reference = [0u8; Listed::MAX_REFERENCE + 1];
    let mut room = [9999u64; Value::MAX_BYTES / 2 * 3];
    let Some(given) = read_octet(input, out)? else {
        return Ok(false);
    };
    let Some(r) = read_input(input, out, &mut reference)? else {
        return Ok(false);
    };
    let Some(defaults) = read_octet(input, out)? else {
        return Ok(false);
    };
    let Some(n) = read_length(input, out)? else {
        return Ok(false);
    };
    list_into(
        out,
        table,
        value,
        given != 0,
        octets::part(&reference, 0, r),
        defaults != 0,
        n,
        &mut room,
    )
}

fn filter_case<R: Read, W: Write>(
    input: &mut R,
    out: &mut W,
    table: &[u8],
    value: &[u8],
) -> io::Result<bool> {
    let mut filter = [0u8; Filter::MAX_BYTES + 1];
    let Some(f) = read_input(input, out, &mut filter)? else {
        return Ok(false);
    };
    let Some(budget) = read_number(input, out)? else {
        return Ok(false);
    };
    match engine::ask(table, value, octets::part(&filter, 0, f), budget as u64) {
        Ok(Answer::True(n)) => print_line(out, b"TRUE ", n as u64)?,
        Ok(Answer::False(n)) => print_line(out, b"FALSE ", n as u64)?,
        Ok(Answer::Undefined(n)) => print_line(out, b"UNDEFINED ", n as u64)?,
        Err(r) => print_line(out, b"refused ", r.number() as u64)?,
    }
    Ok(true)
}

// One question about a table and a value.
fn question<R: Read, W: Write>(
    input: &mut R,
    out: &mut W,
    table: &[u8],
    value: &[u8],
) -> io::Result<bool> {
    let mut kind = [0u8; 1];
    if !read_whole(input, out, &mut kind)? {
        return Ok(false);
    }
    if kind[0] == b'l' {
        return list_case(input, out, table, value);
    }
    if kind[0] == b'f' {
        return filter_case(input, out, table, value);
    }
    unknown(out, kind[0])
}

fn questions<R: Read, W: Write>(
    input: &mut R,
    out: &mut W,
    table: &[u8],
    value: &[u8],
) -> io::Result<bool> {
    let Some(n) = read_length(input, out)? else {
        return Ok(false);
    };
    for _ in 0..n {
        if !question(input, out, table, value)? {
            return Ok(false);
        }
    }
    Ok(true)
}

fn questions_case<R: Read, W: Write>(input: &mut R, out: &mut W) -> io::Result<bool> {
    let mut table = [0u8; Table::MAX_BYTES + 1];
    let mut value = [0u8; Value::MAX_BYTES + 1];
    let Some(t) = read_input(input, out, &mut table)? else {
        return Ok(false);
    };
    let Some(v) = read_input(input, out, &mut value)? else {
        return Ok(false);
    };
    questions(
        input,
        out,
        octets::part(&table, 0, t),
        octets::part(&value, 0, v),
    )
}

// One case; false at the end of the input too.
fn one<R: Read, W: Write>(input: &mut R, out: &mut W) -> io::Result<bool> {
    let mut kind = [0u8; 1];
    let got = reading::read_full(input, &mut kind)?;
    if got < 1 {
        return Ok(false);
    }
    if kind[0] == b't' {
        return table_case(input, out);
    }
    if kind[0] == b'v' {
        return value_case(input, out);
    }
    if kind[0] == b'p' {
        return part_case(input, out);
    }
    if kind[0] == b'q' {
        return questions_case(input, out);
    }
    unknown(out, kind[0])
}

fn main(rt: HostRuntime) -> io::Result<()> {
    let mut input = rt.stdin();
    let mut out = rt.stdout();
    for _ in 0..u64::MAX {
        if !one(&mut input, &mut out)? {
            break;
        }
    }
    Ok(())
}
