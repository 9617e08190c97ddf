// Lists what the reference of the file `reference` names in the value of the file `value`, whose type is given by the table of the file `table`:
// a line for each named value.
#![tactic(auto)]

ghost use Rattle.std.specs.Prelude.{◌≡◌, length, OnOk, OnErr};
ghost use Rattle.std.specs.Io.{ReadsAtMost};
ghost use Rattle.std.specs.Io.KnownBytes.{Appends};

use engine::Listed;
use rows::Table;
use std::io::{Read, Write};
use std::rt::Files;
use std::{fs, io};
use value::Value;

// A file that is there, opened.
fn open_file<R: Files>(rt: &R, name: &str) -> io::Result<Option<R::File>> {
    if !fs::exists(rt, name)? {
        return Ok(None);
    }
    Ok(Some(fs::open(rt, name)?))
}

// The octets of an opened file at the start of buf, as many as fit; none where it was not opened.
fn read_opened<F: Read + Drop>(file: Option<F>, buf: &mut [u8]) -> io::Result<usize>
    ensures count { ReadsAtMost result buf.new }
    ensures err { OnErr result (length buf.new ≡ length buf.old) }
{
    let Some(mut file) = file else {
        return Ok(0);
    };
    reading::read_full(&mut file, buf)
}

fn print_word<W: Write>(out: &mut W, word: &[u8]) -> io::Result<()>
    ensures { OnOk result (Appends (W.contents out.old) (W.contents out.new) word.now) }
{
    out.write_all(word)
}

fn print_number<W: Write>(out: &mut W, word: &[u8], n: u64) -> io::Result<()> {
    print_word(out, word)?;
    write!(out, "{n}")
}

fn digit(n: u8) -> u8 {
    match n {
        0..=9 => b'0' + n,
        10..=15 => b'A' - 10 + n,
        _ => b'?',
    }
}

fn print_octet<W: Write>(out: &mut W, b: u8) -> io::Result<()> {
    let text = [digit(b >> 4), digit(b & 15)];
    print_word(out, &text)
}

// Octets as hexadecimal digits, two for each.
fn print_octets<W: Write>(out: &mut W, part: &[u8]) -> io::Result<()> {
    for b in part {
        print_octet(out, *b)?;
    }
    Ok(())
}

// The line of a listed value: its three numbers, and for a stored one its octets, header and contents.
fn print_listed<W: Write>(
    out: &mut W,
    value: &[u8],
    source: u64,
    place: u64,
    number: u64,
) -> io::Result<()> {
    print_number(out, b"", source)?;
    print_number(out, b" ", place)?;
    print_number(out, b" ", number)?;
    if source == 0 {
        print_word(out, b" ")?;
        print_octets(out, reader::value_octets(value, place as usize))?;
    }
    print_word(out, b"\n")
}

// The listed values, as many as the room has three numbers for.
fn print_room<W: Write>(out: &mut W, value: &[u8], listed: usize, room: &[u64]) -> io::Result<()> {
    for numbers in room.chunks_exact(3).take(listed) {
        print_listed(out, value, numbers[0], numbers[1], numbers[2])?;
    }
    Ok(())
}

fn show<W: Write>(
    out: &mut W,
    table: &[u8],
    value: &[u8],
    given: bool,
    reference: &[u8],
    room: &mut [u64],
) -> io::Result<()> {
    match engine::list(table, value, given, reference, true, room) {
        Ok(l) => print_room(out, value, l.values, room),
        Err(r) => {
            print_number(out, b"REFUSED ", r.number() as u64)?;
            print_word(out, b"\n")
        }
    }
}

// Each buffer has one octet more than document 01 allows, so that a file that is too long is refused by its size. The room is enough for any listing:
// named values are at most half as many as the value's octets, with three numbers each.
fn main(rt: HostRuntime) -> io::Result<()> {
    let mut table = [0u8; Table::MAX_BYTES + 1];
    let mut value = [0u8; Value::MAX_BYTES + 1];
    let mut reference = [0u8; Listed::MAX_REFERENCE + 1];
    let mut room = [0u64; Value::MAX_BYTES / 2 * 3];
    let t = read_opened(open_file(&rt, "table")?, &mut table)?;
    let v = read_opened(open_file(&rt, "value")?, &mut value)?;
    let file = open_file(&rt, "reference")?;
    let given = file.is_some();
    let r = read_opened(file, &mut reference)?;
    show(
        &mut rt.stdout(),
        &table[..t],
        &value[..v],
        given,
        &reference[..r],
        &mut room,
    )
}
