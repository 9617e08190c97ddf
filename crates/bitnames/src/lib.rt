// Names of bits: a GSER list of them, as a set of bits.
#![tactic(auto)]

ghost use Rattle.std.specs.Prelude.{◌≡◌, ◌<◌, length};
ghost use Rattle.octets.specs.Inner.Answers.{between};
ghost use Rattle.table.specs.Inner.Rows.{table_rows};
ghost use Rattle.table.specs.Inner.Words.{Worded};
ghost use Rattle.bitnames.specs.Names as names;
ghost use Rattle.bitnames.specs.Inner.Sets as sets;

// The number of the bit, of those that stand after a row, that has the name from a to b.
fn number_of(t: &[u8], w: &[u64; 256], row: usize, s: &[u8], a: usize, b: usize) -> Option<usize>
    requires worded { Worded t.now w.now }
    requires here { row < length (table_rows t.now) }
    ensures number { sets.report_number result ≡ names.number_of (sets.names_after t.now row) (between s.now a b) }
    ensures low { sets.Low result }
{
    let n = rows::bit_names_at(t, table::place(t, w, row));
    for j in 0..n {
        let p = table::place(t, w, row + 1 + j);
        if reference::is_named(t, p, s, a, b) {
            let number = octets::wide(rows::bit_number_at(t, p));
            return Some(number);
        }
    }
    None
}

// The bits that the texts between the commas of s name; each is looked up once.
fn listed_in(t: &[u8], w: &[u64; 256], row: usize, s: &[u8]) -> Option<u64>
    requires worded { Worded t.now w.now }
    requires here { row < length (table_rows t.now) }
    ensures { sets.report_set result ≡ sets.bits_of_texts (sets.names_after t.now row) (sets.texts_from s.now 0) }
{
    let mut at = 0;
    let mut set = 0;
    // A cursor: each text says where the next one starts.
    while at <= s.len() {
        let end = gser::part_end(s, at);
        let start = gser::skip_spaces(s, at, end);
        let n = number_of(t, w, row, s, start, end)?;
        set |= 1u64 << n;
        at = end + 1;
    }
    Some(set)
}

// The bits that a value text lists by the names that stand after a row.
pub fn listed_bits(t: &[u8], w: &[u64; 256], row: usize, text: &[u8]) -> Option<u64>
    requires worded { Worded t.now w.now }
    requires here { row < length (table_rows t.now) }
    ensures { sets.report_set result ≡ names.listed_bits (sets.names_after t.now row) text.now }
{
    if !gser::in_braces(text) {
        return None;
    }
    let s = gser::inside(text);
    if s.is_empty() {
        return Some(0);
    }
    listed_in(t, w, row, s)
}
