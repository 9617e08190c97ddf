// The five entries, `quote` and `escape` for programs in other languages, as include/tezqulom.h declares them. A slice is a pointer and a length.
#![tactic(auto)]

ghost use Rattle.std.specs.Prelude.{◌≡◌};
ghost use Rattle.types.specs.Check as tables;
ghost use Rattle.table.specs.Check as check;
ghost use Rattle.value.specs.Check as values;
ghost use Rattle.value.specs.Part as parts;
ghost use Rattle.value.specs.Part.{part_report};
ghost use Rattle.rules.specs.Rule.{known_rules};
ghost use Rattle.quote.specs.Quote.{quoted_report};
ghost use Rattle.escape.specs.Escape.{escaped_report};
ghost use Rattle.engine.specs.Answer as answer;
ghost use Rattle.engine.specs.Listing as listing;
ghost use Rattle.engine.specs.Paper.{limits};
ghost use Rattle.capi.specs.Numbers.{is_set, numbers, of_table, of_value, of_part, part_seen, of_listed, of_listing, written_seen, of_quoted, of_quoting};
ghost use Rattle.capi.specs.Numbers.{of_escaped, of_escaping, of_report};

use engine::{Answer, Listed};
use escape::EscapeError;
use quote::QuoteError;
use rows::Table;
use table::Refusal;

// An answer as two numbers: what it is (0 done, a refusal by its number, 16 FALSE, 17 TRUE, 18 Undefined, 32 to 34 nothing quoted or escaped), and a count,
// which is 0 with a refusal and where nothing is quoted or escaped.
#[repr(C)]
#[derive(Clone, Copy)]
pub struct CAnswer {
    pub number: u64,
    pub count: u64,
}

impl CAnswer {
    fn of(number: u64, count: u64) -> Self
        ensures { result ≡ numbers number count }
    {
        Self { number, count }
    }

    // A refusal by its number.
    fn refused(r: Refusal) -> Self
        ensures { result ≡ numbers (check.refusal_number r) 0 }
    {
        Self::of(r.number() as u64, 0)
    }
}

// ---- each kind of answer as two numbers
fn of_table(a: Result<Table, Refusal>) -> CAnswer
    ensures { result ≡ of_table (check.report a) }
{
    match a {
        Ok(t) => CAnswer::of(0, t.rows as u64),
        Err(r) => CAnswer::refused(r),
    }
}

fn of_octets(a: Result<&[u8], Refusal>) -> CAnswer
    ensures { result ≡ (of_part (parts.report a.entry)).answer }
{
    match a {
        Ok(octets) => CAnswer::of(0, octets.len() as u64),
        Err(r) => CAnswer::refused(r),
    }
}

fn of_value(a: Result<(), Refusal>) -> CAnswer
    ensures { result ≡ of_value (values.report a) }
{
    match a {
        Ok(()) => CAnswer::of(0, 0),
        Err(r) => CAnswer::refused(r),
    }
}

fn of_listed(a: Result<Listed, Refusal>) -> CAnswer
    ensures { result ≡ of_listed (listing.report a) }
{
    match a {
        Ok(l) => CAnswer::of(0, l.values as u64),
        Err(r) => CAnswer::refused(r),
    }
}

fn of_quoted(a: Result<usize, QuoteError>) -> CAnswer
    ensures { result ≡ of_quoted a }
{
    match a {
        Ok(quoted) => CAnswer::of(0, quoted as u64),
        Err(QuoteError::Empty) => CAnswer::of(32, 0),
        Err(QuoteError::NotUtf8) => CAnswer::of(33, 0),
        Err(QuoteError::TooLittleRoom) => CAnswer::of(34, 0),
    }
}

fn of_escaped(a: Result<usize, EscapeError>) -> CAnswer
    ensures { result ≡ of_escaped a }
{
    match a {
        Ok(n) => CAnswer::of(0, n as u64),
        Err(EscapeError::NotUtf8) => CAnswer::of(33, 0),
        Err(EscapeError::TooLittleRoom) => CAnswer::of(34, 0),
    }
}

fn of_answer(a: Result<Answer, Refusal>) -> CAnswer
    ensures { result ≡ of_report (answer.report a) }
{
    match a {
        Ok(Answer::False(n)) => CAnswer::of(16, n as u64),
        Ok(Answer::True(n)) => CAnswer::of(17, n as u64),
        Ok(Answer::Undefined(n)) => CAnswer::of(18, n as u64),
        Err(r) => CAnswer::refused(r),
    }
}

// ---- the entries
#[unsafe(no_mangle)]
pub extern "C" fn tezqulom_check_table(table: &[u8]) -> CAnswer
    ensures { result ≡ of_table (tables.table_report limits.table table.now) }
{
    of_table(table::check_table(table))
}

#[unsafe(no_mangle)]
pub extern "C" fn tezqulom_check_value(table: &[u8], value: &[u8]) -> CAnswer
    ensures { result ≡ of_value (values.value_report limits.table limits.value table.now value.now) }
{
    of_value(value::check_value(table, value))
}

#[unsafe(no_mangle)]
pub extern "C" fn tezqulom_part(value: &[u8], place: u64, length: u64) -> CAnswer
    ensures { part_seen value.now place result ≡ of_part (part_report limits.value value.now place length) }
{
    of_octets(value::part(value, place as usize, length as usize))
}

#[unsafe(no_mangle)]
pub extern "C" fn tezqulom_list(
    table: &[u8],
    value: &[u8],
    given: u64,
    reference: &[u8],
    defaults: u64,
    room: &mut [u64],
) -> CAnswer
    ensures { written_seen result room.new
        ≡ of_listing (listing.list_report limits table.now value.now (is_set given) reference.now (is_set defaults)
        room.old) }
{
    of_listed(engine::list(table, value, given != 0, reference, defaults != 0, room))
}

#[unsafe(no_mangle)]
pub extern "C" fn tezqulom_ask(table: &[u8], value: &[u8], filter: &[u8], budget: u64) -> CAnswer
    ensures { result ≡ of_report (answer.ask_report limits known_rules table.now value.now filter.now budget) }
{
    of_answer(engine::ask(table, value, filter, budget))
}

// ---- what filters are made with
#[unsafe(no_mangle)]
pub extern "C" fn tezqulom_quote(text: &[u8], room: &mut [u8]) -> CAnswer
    ensures { written_seen result room.new ≡ of_quoting (quoted_report text.now room.old) }
{
    of_quoted(quote::quote(text, room))
}

#[unsafe(no_mangle)]
pub extern "C" fn tezqulom_escape(text: &[u8], room: &mut [u8]) -> CAnswer
    ensures { written_seen result room.new ≡ of_escaping (escaped_report text.now room.old) }
{
    of_escaped(escape::escape(text, room))
}
