// The value of an attribute, escaped for a name as RFC 4514 has it.
#![tactic(auto)]

ghost use Rattle.std.specs.Prelude.{◌≡◌, ◌≤◌, ◌<◌, length, Ok};
ghost use Rattle.escape.specs.Escape as specs;
ghost use Rattle.escape.specs.Reading.{Reads};
ghost use Rattle.escape.specs.Inner.Work as work;

// Why nothing is written: a text that isn't UTF-8, too little room.
#[derive(Clone, Copy, Debug, PartialEq, Eq)]
pub enum EscapeError {
    NotUtf8,
    TooLittleRoom,
}

// Whether a character is escaped wherever it stands. Letters, and all that isn't ASCII, need two comparisons.
#[tactic(auto, unfolding(crate::specs::Escape::always_escaped))]
fn always_escaped(b: u8) -> bool
    ensures { result ≡ specs.always_escaped b }
{
    if b'>' < b {
        return b == b'\\';
    }
    matches!(b, b'"' | b'+' | b',' | b';' | b'<' | b'>')
}

// Whether a character is escaped as the first or the last of a text.
#[tactic(auto, unfolding(crate::specs::Escape::edge_escaped))]
fn edge_escaped(b: u8, first: bool, last: bool) -> bool
    ensures { result ≡ specs.edge_escaped first last b }
{
    match b {
        b' ' => first || last,
        b'#' => first,
        _ => false,
    }
}

// The octets that an octet of a text takes in the escaped text.
#[tactic(auto, unfolding(crate::specs::Inner::Work::width))]
fn width(b: u8, first: bool, last: bool) -> usize
    ensures { result ≡ work.width first last b }
{
    if b == 0 {
        3
    } else if always_escaped(b) || edge_escaped(b, first, last) {
        2
    } else {
        1
    }
}

// The same of the octet at a place.
fn width_at(text: &[u8], i: usize) -> usize
    requires { i < length text.now }
    ensures { result ≡ work.width_at text.now i }
{
    width(text[i], i == 0, i + 1 == text.len())
}

// Whether the escaped text fits a room of so many octets. Three times the octets are enough for any text as long, and nothing is counted then.
fn fits(text: &[u8], size: usize) -> bool
    ensures { result ≡ specs.fits text.now size }
{
    if text.len() <= size / 3 {
        return true;
    }
    let mut left = size;
    for i in 0..text.len() {
        let w = width_at(text, i);
        if left < w {
            return false;
        }
        left -= w;
    }
    true
}

// Writes the escaped text, and answers its length.
fn write(text: &[u8], room: &mut [u8]) -> usize
    requires { length (specs.escaped_text text.now) ≤ length room.old }
    ensures { specs.escaping (Ok result) room.new ≡ specs.written text.now room.old }
{
    let mut n = 0;
    for i in 0..text.len() {
        let octet = text[i];
        match width_at(text, i) {
            1 => {
                room[n] = octet;
                n += 1;
            }
            2 => {
                room[n] = b'\\';
                room[n + 1] = octet;
                n += 2;
            }
            _ => {
                room[n] = b'\\';
                room[n + 1] = b'0';
                room[n + 2] = b'0';
                n += 3;
            }
        }
    }
    n
}

// The same where all of it fits; else nothing is written.
#[tactic(auto, unfolding(crate::specs::Escape::escaped_into))]
fn escape_into(text: &[u8], room: &mut [u8]) -> Result<usize, EscapeError>
    ensures { specs.escaping result room.new ≡ specs.escaped_into text.now room.old }
{
    if !fits(text, room.len()) {
        return Err(EscapeError::TooLittleRoom);
    }
    Ok(write(text, room))
}

// Writes a text, escaped as the value of an attribute, into the room that is lent, where it is UTF-8 and all of it fits. Any octets for both.
#[tactic(auto, unfolding(crate::specs::Escape::escaped_report))]
pub fn escape(text: &[u8], room: &mut [u8]) -> Result<usize, EscapeError>
    ensures room_after { specs.escaping result room.new ≡ specs.escaped_report text.now room.old }
    ensures reads { Reads result text.now room.new }
{
    if !octets::utf8(text) {
        return Err(EscapeError::NotUtf8);
    }
    escape_into(text, room)
}
