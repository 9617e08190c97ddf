// The answers of the engine: the listing, and the answer to a filter.
#![tactic(auto)]

ghost use Rattle.std.specs.Prelude.{◌≡◌, true, ◌≤◌, ◌+◌, ◌/◌, length, Ok};
ghost use Rattle.rows.specs.Paper.{table_limits};
ghost use Rattle.types.specs.Admitted.{admitted};
ghost use Rattle.table.specs.Inner.Rows.{type_at};
ghost use Rattle.table.specs.Inner.Words.{Worded};
ghost use Rattle.rules.specs.Rule.{known_rules};
ghost use Rattle.plan.specs.Inner.Task.{counting, task_of};
ghost use Rattle.filter.specs.Parse.{parse};
ghost use Rattle.filter.specs.Paper.{filter_limits};
ghost use Rattle.evaluation.specs.Inner.Work.{Ready};
ghost use Rattle.engine.specs.Answer as answer;
ghost use Rattle.engine.specs.Listing.{report, lists, reference_fits, listing_fits, list_report, listing};
ghost use Rattle.engine.specs.Paper.{limits};
ghost use Rattle.engine.specs.Inner.Checked.{PassedIf};
ghost use Rattle.engine.specs.Inner.Judged.{refused_behind, settled_as};
ghost use Rattle.engine.specs.Inner.Listed as inner;

use evaluation::{Fault, Verdict};
use filter::Filter;
use reference::Target;
use rows::Table;
use table::Refusal;
use value::Value;

// A listing: the number of named values.
#[derive(Clone, Copy)]
pub struct Listed {
    pub values: usize,
}

impl Listed {
    pub const MAX_REFERENCE: usize = 2048;

    // So many named values.
    pub fn of(n: usize) -> Self
        ensures { report (Ok result) ≡ lists n }
    {
        Self { values: n }
    }
}

// ---- checks
// Nothing where it holds, and else a refusal.
fn require(holds: bool, refusal: Refusal) -> Result<(), Refusal>
    ensures { PassedIf holds refusal result }
{
    if holds {
        return Ok(());
    }
    Err(refusal)
}

// Writes the words of an admitted table; another is refused.
fn admit(table: &[u8], w: &mut [u64; 256]) -> Result<(), Refusal>
    ensures told { PassedIf (admitted table_limits table.now) Refusal.Table result }
    ensures words { admitted table_limits table.now ≡ true → Worded table.now w.new }
{
    if table::admit_table(table, w) == 0 {
        return Err(Refusal::Table);
    }
    Ok(())
}

fn reference_fits(given: bool, reference: &[u8]) -> bool
    ensures { result ≡ reference_fits limits given reference.now }
{
    if !given {
        return true;
    }
    reference.len() <= Listed::MAX_REFERENCE
}

#[tactic(auto, unfolding(crate::specs::Listing::listing_fits))]
fn listing_fits(table: &[u8], value: &[u8], given: bool, reference: &[u8]) -> bool
    ensures { result ≡ listing_fits limits table.now value.now given reference.now }
{
    Table::fits(table) && Value::fits(value) && reference_fits(given, reference)
}

// ---- the listing
// Writes the plan of a count of what a reference names, up to a limit; what the reference leads to, or a refusal where it leads nowhere.
fn plan_count(
    t: &[u8],
    w: &[u64; 256],
    q: &mut [usize; 72],
    limit: usize,
    given: bool,
    r: &[u8],
    defaults: bool,
) -> Result<Target, Refusal>
    requires worded { Worded t.now w.now }
    requires admitted { admitted table_limits t.now ≡ true }
    ensures leads { inner.Leads t.now q.new given r.now defaults result }
    ensures counts { task_of q.new ≡ counting limit }
{
    plan::plan_tally(q, limit);
    plan::resolve(t, w, q, given, r, b"", defaults).ok_or(Refusal::Form)
}

// The least number of values that a room of so many numbers is too small for.
fn too_many(room: usize) -> usize
    ensures { result ≡ room / 3 + 1 }
{
    room / 3 + 1
}

// What a plan names in a stored value: counted first, up to the least number there is no room for, and written where there is room.
fn list_planned(
    t: &[u8],
    w: &[u64; 256],
    q: &mut [usize; 72],
    v: &[u8],
    limit: usize,
    room: &mut [u64],
) -> Result<Listed, Refusal>
    requires worded { Worded t.now w.now }
    requires asks { inner.Asked t.now q.old v.now }
    requires counts { task_of q.old ≡ counting limit }
    requires least { limit ≡ length room.old / 3 + 1 }
    ensures { inner.Lists t.now q.old v.now room.old (listing result room.new) }
{
    let n = walk::tally(t, w, q, v, 0);
    if limit <= n {
        return Err(Refusal::Room);
    }
    plan::plan_listing(q);
    walk::list(t, w, q, v, 0, room);
    Ok(Listed::of(n))
}

// The listing: three numbers for each value that a reference names, or for the whole value where none is given. Any octets for all.
pub fn list(
    table: &[u8],
    value: &[u8],
    given: bool,
    reference: &[u8],
    defaults: bool,
    room: &mut [u64],
) -> Result<Listed, Refusal>
    ensures { listing result room.new
        ≡ list_report limits table.now value.now given reference.now defaults room.old }
{
    let fits = listing_fits(table, value, given, reference);
    require(fits, Refusal::Size)?;
    let mut w = [0u64; 256];
    admit(table, &mut w)?;
    let mut q = [0usize; 72];
    let limit = too_many(room.len());
    plan_count(table, &w, &mut q, limit, given, reference, defaults)?;
    require(value::is_stored(table, &w, value), Refusal::Value)?;
    list_planned(table, &w, &mut q, value, limit, room)
}

// ---- a filter
// The answer to a filter: its truth with the tests made.
#[derive(Clone, Copy)]
pub enum Answer {
    True(usize),
    False(usize),
    Undefined(usize),
}

impl Answer {
    pub const MAX_BUDGET: u64 = 65535;

    // A truth with the tests made.
    pub fn of(u: Verdict, n: usize) -> Self
        ensures { result ≡ settled_as u n }
    {
        match u {
            Verdict::True => Answer::True(n),
            Verdict::False => Answer::False(n),
            Verdict::Undefined => Answer::Undefined(n),
        }
    }
}

#[tactic(auto, unfolding(crate::specs::Answer::question_fits))]
fn question_fits(table: &[u8], value: &[u8], filter: &[u8], budget: u64) -> bool
    ensures { result ≡ answer.question_fits limits table.now value.now filter.now budget }
{
    Table::fits(table) && Value::fits(value) && Filter::fits(filter) && budget <= Answer::MAX_BUDGET
}

// A refusal, where a text is a filter; else that of a text that is none, which comes before it.
fn refuse_filter(filter: &[u8], refusal: Refusal) -> Result<Answer, Refusal>
    ensures { result ≡ refused_behind refusal (parse filter_limits filter.now) }
{
    let Some(_) = filter::read(filter) else {
        return Err(Refusal::Form);
    };
    Err(refusal)
}

// The answer on a value that has been checked.
fn ask_stored(
    t: &[u8],
    w: &[u64; 256],
    v: &[u8],
    filter: &[u8],
    budget: usize,
) -> Result<Answer, Refusal>
    requires ready { Ready t.now w.now v.now filter.now }
    ensures { answer.report result
        ≡ answer.with_filter known_rules (type_at t.now 0) v.now budget (parse filter_limits filter.now) }
{
    match evaluation::judge(t, w, v, filter, budget) {
        Ok(judged) => Ok(Answer::of(judged.verdict, judged.tests)),
        Err(Fault::Over) => refuse_filter(filter, Refusal::Tests),
        Err(Fault::Malformed) => Err(Refusal::Form),
    }
}

// The answer to a filter over a value: any octets for table, value and filter, any budget.
pub fn ask(table: &[u8], value: &[u8], filter: &[u8], budget: u64) -> Result<Answer, Refusal>
    ensures { answer.report result ≡ answer.ask_report limits known_rules table.now value.now filter.now budget }
{
    require(question_fits(table, value, filter, budget), Refusal::Size)?;
    let mut w = [0u64; 256];
    admit(table, &mut w)?;
    if !value::is_stored(table, &w, value) {
        return refuse_filter(filter, Refusal::Value);
    }
    ask_stored(table, &w, value, filter, budget as usize)
}
