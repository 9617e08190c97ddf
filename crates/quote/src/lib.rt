// The quoted form of a text, as an assertion's value text has it.
#![tactic(auto)]

ghost use Rattle.std.specs.Prelude.{◌≡◌, ◌≤◌, length, Ok};
ghost use Rattle.quote.specs.Quote as specs;
ghost use Rattle.quote.specs.Reading.{Reads};
ghost use Rattle.quote.specs.Inner.Work as work;

// Why nothing is written: an empty text, one that isn't UTF-8, too little room.
#[derive(Clone, Copy, Debug, PartialEq, Eq)]
pub enum QuoteError {
    Empty,
    NotUtf8,
    TooLittleRoom,
}

// The octets that an octet of a text takes in its quoted form.
fn width(b: u8) -> usize
    ensures { result ≡ work.width b }
{
    if b == b'"' { 2 } else { 1 }
}

// Whether the quoted form of a text fits a room of so many octets. Only where the room is neither enough for any text as long nor too little for each is
// anything counted; that loop has no early end, so that a machine can compare many octets at once.
fn fits(text: &[u8], size: usize) -> bool
    ensures { result ≡ specs.fits text.now size }
{
    if size < 2 {
        return false;
    }
    let free = size - 2;
    if text.len() <= free / 2 {
        return true;
    }
    if free < text.len() {
        return false;
    }
    let mut more = 0;
    for octet in text {
        more += width(*octet) - 1;
    }
    more <= free - text.len()
}

// Writes the quoted form of a text, and answers its length.
fn write(text: &[u8], room: &mut [u8]) -> usize
    requires { length (specs.quoted text.now) ≤ length room.old }
    ensures { specs.quoting (Ok result) room.new ≡ specs.written text.now room.old }
{
    room[0] = b'"';
    let mut n = 1;
    for octet in text {
        room[n] = *octet;
        n += 1;
        if *octet == b'"' {
            room[n] = b'"';
            n += 1;
        }
    }
    room[n] = b'"';
    n + 1
}

// The same where all of it fits; else nothing is written.
#[tactic(auto, unfolding(crate::specs::Quote::quoted_into))]
fn quote_into(text: &[u8], room: &mut [u8]) -> Result<usize, QuoteError>
    ensures { specs.quoting result room.new ≡ specs.quoted_into text.now room.old }
{
    if !fits(text, room.len()) {
        return Err(QuoteError::TooLittleRoom);
    }
    Ok(write(text, room))
}

// Writes the quoted form of a text into the room that is lent, where it is a text and all of it fits. Any octets for both.
#[tactic(auto, unfolding(crate::specs::Quote::quoted_report))]
pub fn quote(text: &[u8], room: &mut [u8]) -> Result<usize, QuoteError>
    ensures room_after { specs.quoting result room.new ≡ specs.quoted_report text.now room.old }
    ensures reads { Reads result text.now room.new }
{
    if text.is_empty() {
        return Err(QuoteError::Empty);
    }
    if !octets::utf8(text) {
        return Err(QuoteError::NotUtf8);
    }
    quote_into(text, room)
}
