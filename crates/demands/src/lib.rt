// The demands, as contracts of functions that call the entries.
#![tactic(auto)]

ghost use Rattle.std.specs.Prelude.{◌≡◌};
ghost use Rattle.table.specs.Check as check;
ghost use Rattle.value.specs.Check as values;
ghost use Rattle.value.specs.Part as parts;
ghost use Rattle.engine.specs.Answer as answer;
ghost use Rattle.engine.specs.Listing as listing;
ghost use Rattle.demands.specs.Refusals.{RefusesTable, RefusesValue, part_refusal, PartRefused, RefusesListing, RefusesFilter};
ghost use Rattle.demands.specs.Truths.{AnswersTruly};
ghost use Rattle.demands.specs.Demand.{Demanded};

use engine::{Answer, Listed};
use rows::Table;
use table::Refusal;

// ---- demand 1
pub fn check_table(table: &[u8]) -> Result<Table, Refusal>
    ensures { RefusesTable table.now (check.report result) }
{
    table::check_table(table)
}

pub fn check_value(table: &[u8], value: &[u8]) -> Result<(), Refusal>
    ensures { RefusesValue table.now value.now (values.report result) }
{
    value::check_value(table, value)
}

// The fifth entry: its refusal, and its part.
pub fn part(value: &[u8], place: usize, length: usize) -> Result<&[u8], Refusal>
    ensures number { (parts.report result).refusal ≡ part_refusal value.now place length }
    ensures octets { PartRefused (part_refusal value.now place length) (parts.report result).octets }
{
    value::part(value, place, length)
}

pub fn part_number(value: &[u8], place: usize, length: usize) -> u8
    ensures { result ≡ part_refusal value.now place length }
{
    value::part_number(value, place, length)
}

pub fn part_bytes(value: &[u8], place: usize, length: usize) -> &[u8]
    ensures { PartRefused (part_refusal value.now place length) result.now }
{
    value::part_bytes(value, place, length)
}

pub fn list(
    table: &[u8],
    value: &[u8],
    given: bool,
    reference: &[u8],
    defaults: bool,
    room: &mut [u64],
) -> Result<Listed, Refusal>
    ensures { RefusesListing table.now value.now given reference.now defaults room.old
        (listing.listing result room.new) }
{
    engine::list(table, value, given, reference, defaults, room)
}

// ---- demands 1 and 2
pub fn ask(table: &[u8], value: &[u8], filter: &[u8], budget: u64) -> Result<Answer, Refusal>
    ensures refusals { RefusesFilter table.now value.now filter.now budget (answer.report result) }
    ensures truths { AnswersTruly table.now value.now filter.now (answer.report result) }
{
    engine::ask(table, value, filter, budget)
}

// ---- demand 3
// What the listing and the filter were answered.
#[derive(Clone, Copy)]
pub struct Replies {
    pub listed: Result<Listed, Refusal>,
    pub answer: Result<Answer, Refusal>,
}

pub fn list_and_ask(
    table: &[u8],
    value: &[u8],
    given: bool,
    reference: &[u8],
    defaults: bool,
    room: &mut [u64],
    filter: &[u8],
    budget: u64,
) -> Replies
    ensures { Demanded table.now value.now given reference.now defaults room.old filter.now budget
        (listing.listing result.listed room.new) (answer.report result.answer) }
{
    let listed = engine::list(table, value, given, reference, defaults, room);
    let answer = engine::ask(table, value, filter, budget);
    Replies { listed, answer }
}
