// Answers the filter of the file `filter` over the value of the file `value`, whose type is given by the table of the file `table`.
#![tactic(auto)]

ghost use Rattle.std.specs.Prelude.{◌≡◌, length, OnErr};
ghost use Rattle.std.specs.Io.{ReadsAtMost};

use engine::Answer;
use filter::Filter;
use rows::Table;
use std::rt::Files;
use std::{fs, io};
use value::Value;

// The octets of a file at the start of buf, as many as fit; none where the file is missing. An error leaves a buf of the same length, with what was read.
fn read_file<R: Files>(rt: &R, name: &str, buf: &mut [u8]) -> io::Result<usize>
    ensures count { ReadsAtMost result buf.new }
    ensures err { OnErr result (length buf.new ≡ length buf.old) }
{
    if !fs::exists(rt, name)? {
        return Ok(0);
    }
    reading::read_full(&mut fs::open(rt, name)?, buf)
}

fn print_line<R: Print>(rt: &R, word: &str, n: u64) -> io::Result<()> {
    println!(rt; "{word}{n}")
}

// Each buffer has one octet more than document 01 allows, so that a file that is too long is refused by its size.
fn main(rt: HostRuntime) -> io::Result<()> {
    let mut table = [0u8; Table::MAX_BYTES + 1];
    let mut value = [0u8; Value::MAX_BYTES + 1];
    let mut filter = [0u8; Filter::MAX_BYTES + 1];
    let t = read_file(&rt, "table", &mut table)?;
    let v = read_file(&rt, "value", &mut value)?;
    let f = read_file(&rt, "filter", &mut filter)?;
    match engine::ask(&table[..t], &value[..v], &filter[..f], Answer::MAX_BUDGET) {
        Ok(Answer::True(n)) => print_line(&rt, "TRUE ", n as u64),
        Ok(Answer::False(n)) => print_line(&rt, "FALSE ", n as u64),
        Ok(Answer::Undefined(n)) => print_line(&rt, "UNDEFINED ", n as u64),
        Err(r) => print_line(&rt, "REFUSED ", r.number() as u64),
    }
}
