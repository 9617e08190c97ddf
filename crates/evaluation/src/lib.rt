// The truth of a filter over a value, and the tests made.
#![tactic(auto)]

ghost use Rattle.std.specs.Prelude.{◌≤◌, ◌≡◌, true, false, length};
ghost use Rattle.std.specs.Prelude.{Some};
ghost use Rattle.rows.specs.Paper.{table_limits};
ghost use Rattle.types.specs.Admitted.{admitted};
ghost use Rattle.table.specs.Inner.Rows.{table_rows, type_at};
ghost use Rattle.table.specs.Inner.Words.{Worded};
ghost use Rattle.reference.specs.Inner.Work as reference;
ghost use Rattle.rules.specs.Rule.{rule_of, known_rules};
ghost use Rattle.rules.specs.Inner.Answers.{meant, read_by_target, conforms};
ghost use Rattle.plan.specs.Inner.Test.{report_bits};
ghost use Rattle.plan.specs.Inner.Task.{task_of};
ghost use Rattle.plan.specs.Inner.Operand as operands;
ghost use Rattle.plan.specs.Inner.Operand.{operand_of};
ghost use Rattle.assertion.specs.Assertion.{assertion_at};
ghost use Rattle.assertion.specs.Inner.Places.{component_of, item_of};
ghost use Rattle.filter.specs.Filter.{item};
ghost use Rattle.filter.specs.Parse as parsing;
ghost use Rattle.filter.specs.Paper.{filter_limits};
ghost use Rattle.filter.specs.Inner.Answers.{filters_at, report_join};
ghost use Rattle.evaluation.specs.Inner.Work as work;

use assertion::{Parts, Quotes};
use filter::{Filter, Head, Join, Tail};
use plan::TestNumbers;
use reference::Target;
use rules::Rule;
use walk::State;

#[derive(Clone, Copy)]
pub enum Verdict {
    True,
    False,
    Undefined,
}

// A truth, and the tests made when it is found.
#[derive(Clone, Copy)]
pub struct Judged {
    pub verdict: Verdict,
    pub tests: usize,
}

impl Judged {
    fn of(verdict: Verdict, tests: usize) -> Self
        ensures { result ≡ work.judged verdict tests }
    {
        Self { verdict, tests }
    }
}

// Why there is no truth: more tests are needed than the budget allows, or the text is no filter within the limits.
#[derive(Clone, Copy, Debug, PartialEq, Eq)]
pub enum Fault {
    Over,
    Malformed,
}

// A filter where it stands in a text: its truth with the tests made, the place after it, and the items left of those allowed.
#[derive(Clone, Copy)]
pub struct Judging {
    pub judged: Judged,
    pub after: usize,
    pub items: usize,
}

// What is left at a place of a filter text: the depth and the items; and whether what stands there is judged or passed over.
#[derive(Clone, Copy)]
pub struct Left {
    pub depth: usize,
    pub items: usize,
    pub live: bool,
}

// The tests made, and the most that may be made.
#[derive(Clone, Copy)]
pub struct Tests {
    pub made: usize,
    pub budget: usize,
}

// The filters of a list so far: none stopped it nor was Undefined; none stopped it and one was Undefined; one stopped it; or the list is passed over.
#[derive(Clone, Copy)]
pub enum Progress {
    Plain,
    Unsure,
    Stopped,
    Passed,
}

// ---- one assertion
// Whether a rule is for what a reference leads to.
fn suits_target(rule: Rule, t: &[u8], w: &[u64; 256], target: Option<Target>) -> bool
    requires worded { Worded t.now w.now }
    requires here { reference.row_within (table_rows t.now) target ≡ true }
    ensures { result ≡ work.suits_any (meant rule) (work.target_of t.now target) }
{
    let Some(target) = target else {
        return false;
    };
    match target {
        Target::Row(i) => rules::suits(rule, t, w, i),
        Target::Count => rules::suits_count(rule),
    }
}

// The test of a rule of bits with a value text on what a reference leads to.
fn bits_test(
    rule: Rule,
    t: &[u8],
    w: &[u64; 256],
    target: Option<Target>,
    x: &[u8],
) -> Option<TestNumbers>
    requires worded { Worded t.now w.now }
    requires here { reference.row_within (table_rows t.now) target ≡ true }
    requires bits { read_by_target (meant rule) ≡ true }
    ensures { report_bits result ≡ work.bits_any (meant rule) (work.target_of t.now target) x.now }
{
    let Some(target) = target else {
        return None;
    };
    match target {
        Target::Row(i) => plan::bits_test_at(rule, t, w, i, x),
        Target::Count => None,
    }
}

// Writes the steps of an assertion's reference, for the plan's test with the operand; what it leads to.
fn resolve_component(
    t: &[u8],
    w: &[u64; 256],
    q: &mut [usize; 72],
    f: &[u8],
    component: Option<Quotes>,
    x: &[u8],
    defaults: bool,
) -> Option<Target>
    requires worded { Worded t.now w.now }
    requires admitted { admitted table_limits t.now ≡ true }
    ensures leads { work.target_of t.now result ≡ work.leads_by (component_of f.now component) (type_at t.now 0) }
    ensures within { reference.row_within (table_rows t.now) result ≡ true }
    ensures planned { work.PlannedFor t.now q.new x.now defaults (component_of f.now component) result }
    ensures task { task_of q.new ≡ task_of q.old }
{
    match component {
        None => plan::resolve(t, w, q, false, f, x, defaults),
        Some(quotes) => {
            let r = assertion::within_quotes(f, quotes.open, quotes.close);
            plan::resolve(t, w, q, true, r, x, defaults)
        }
    }
}

// What the end of a walk says of an assertion.
fn ended(state: State) -> Result<Judged, Fault>
    ensures { result ≡ work.ended state }
{
    match state {
        State::Going(k) => Ok(Judged::of(Verdict::False, k)),
        State::Accepted(k) => Ok(Judged::of(Verdict::True, k)),
        State::Over => Err(Fault::Over),
    }
}

// An assertion with a rule and the operand of a value text that conforms.
fn judge_operand(
    t: &[u8],
    w: &[u64; 256],
    v: &[u8],
    f: &[u8],
    p: Parts,
    rule: Rule,
    x: &[u8],
    tests: Tests,
) -> Result<Judged, Fault>
    requires ready { work.Ready t.now w.now v.now f.now }
    requires known { rule_of known_rules (item_of f.now p).rule ≡ Some (meant rule) }
    requires plain { read_by_target (meant rule) ≡ false }
    requires conforming { conforms (meant rule) (item_of f.now p).value ≡ true }
    requires operand { x.now ≡ operand_of (meant rule) (item_of f.now p).value }
    requires within { tests.made ≤ tests.budget }
    ensures { result
        ≡ work.charged tests.budget tests.made (work.stored_outcome (type_at t.now 0) v.now (item_of f.now p)) }
{
    let mut q = [0usize; 72];
    plan::plan_test(&mut q, rule, x, tests.budget);
    let component = p.component;
    let target = resolve_component(t, w, &mut q, f, component, x, p.defaults);
    if !suits_target(rule, t, w, target) {
        return Ok(Judged::of(Verdict::Undefined, tests.made));
    }
    ended(walk::test(t, w, &q, v, x, tests.made))
}

// An assertion whose operand doesn't stand in the text: it is written here, from the part of the value text that it is made of. Apart from others, since a call
// clears the memory.
fn judge_written(
    t: &[u8],
    w: &[u64; 256],
    v: &[u8],
    f: &[u8],
    p: Parts,
    rule: Rule,
    part: &[u8],
    tests: Tests,
) -> Result<Judged, Fault>
    requires ready { work.Ready t.now w.now v.now f.now }
    requires known { rule_of known_rules (item_of f.now p).rule ≡ Some (meant rule) }
    requires plain { read_by_target (meant rule) ≡ false }
    requires conforming { conforms (meant rule) (item_of f.now p).value ≡ true }
    requires part { operands.Part (meant rule) (item_of f.now p).value part.now }
    requires short { length part.now ≤ 2048 }
    requires other { operands.stands (meant rule) part.now ≡ false }
    requires within { tests.made ≤ tests.budget }
    ensures { result
        ≡ work.charged tests.budget tests.made (work.stored_outcome (type_at t.now 0) v.now (item_of f.now p)) }
{
    let text = octets::between(f, p.value, p.value_end);
    let mut memory = [0u8; 5120];
    let n = plan::write_operand(rule, text, part, &mut memory);
    judge_operand(t, w, v, f, p, rule, octets::part(&memory, 0, n), tests)
}

// An assertion with a rule and a value text that conforms: its operand is made here, in memory where it doesn't stand in the text.
fn judge_conforming(
    t: &[u8],
    w: &[u64; 256],
    v: &[u8],
    f: &[u8],
    p: Parts,
    rule: Rule,
    text: &[u8],
    tests: Tests,
) -> Result<Judged, Fault>
    requires ready { work.Ready t.now w.now v.now f.now }
    requires known { rule_of known_rules (item_of f.now p).rule ≡ Some (meant rule) }
    requires plain { read_by_target (meant rule) ≡ false }
    requires value { text.now ≡ (item_of f.now p).value }
    requires conforming { conforms (meant rule) text.now ≡ true }
    requires within { tests.made ≤ tests.budget }
    ensures { result
        ≡ work.charged tests.budget tests.made (work.stored_outcome (type_at t.now 0) v.now (item_of f.now p)) }
{
    let part = plan::operand_part(rule, text);
    if plan::is_operand(rule, part) {
        return judge_operand(t, w, v, f, p, rule, part, tests);
    }
    judge_written(t, w, v, f, p, rule, part, tests)
}

// An assertion with a rule of bits: its value text is read by what the reference leads to, where bits may have names.
fn judge_bits(
    t: &[u8],
    w: &[u64; 256],
    v: &[u8],
    f: &[u8],
    p: Parts,
    rule: Rule,
    text: &[u8],
    tests: Tests,
) -> Result<Judged, Fault>
    requires ready { work.Ready t.now w.now v.now f.now }
    requires known { rule_of known_rules (item_of f.now p).rule ≡ Some (meant rule) }
    requires bits { read_by_target (meant rule) ≡ true }
    requires value { text.now ≡ (item_of f.now p).value }
    requires within { tests.made ≤ tests.budget }
    ensures { result
        ≡ work.charged tests.budget tests.made (work.stored_outcome (type_at t.now 0) v.now (item_of f.now p)) }
{
    let mut q = [0usize; 72];
    let component = p.component;
    let target = resolve_component(t, w, &mut q, f, component, text, p.defaults);
    let Some(test) = bits_test(rule, t, w, target, text) else {
        return Ok(Judged::of(Verdict::Undefined, tests.made));
    };
    plan::set_test(&mut q, test, tests.budget);
    ended(walk::test(t, w, &q, v, text, tests.made))
}

// An assertion with a rule.
fn judge_ruled(
    t: &[u8],
    w: &[u64; 256],
    v: &[u8],
    f: &[u8],
    p: Parts,
    rule: Rule,
    tests: Tests,
) -> Result<Judged, Fault>
    requires ready { work.Ready t.now w.now v.now f.now }
    requires known { rule_of known_rules (item_of f.now p).rule ≡ Some (meant rule) }
    requires within { tests.made ≤ tests.budget }
    ensures { result
        ≡ work.charged tests.budget tests.made (work.stored_outcome (type_at t.now 0) v.now (item_of f.now p)) }
{
    let text = octets::between(f, p.value, p.value_end);
    if rules::reads_by_target(rule) {
        return judge_bits(t, w, v, f, p, rule, text, tests);
    }
    if !rules::conforms(rule, text) {
        return Ok(Judged::of(Verdict::Undefined, tests.made));
    }
    judge_conforming(t, w, v, f, p, rule, text, tests)
}

// An assertion of the filter text f by the places of its parts.
fn judge_parts(
    t: &[u8],
    w: &[u64; 256],
    v: &[u8],
    f: &[u8],
    p: Parts,
    tests: Tests,
) -> Result<Judged, Fault>
    requires ready { work.Ready t.now w.now v.now f.now }
    requires within { tests.made ≤ tests.budget }
    ensures { result
        ≡ work.charged tests.budget tests.made (work.stored_outcome (type_at t.now 0) v.now (item_of f.now p)) }
{
    let Some(rule) = rules::rule_of(octets::between(f, p.rule, p.rule_end)) else {
        return Ok(Judged::of(Verdict::Undefined, tests.made));
    };
    judge_ruled(t, w, v, f, p, rule, tests)
}

// ---- truths
fn opposite(u: Verdict) -> Verdict
    ensures { result ≡ work.opposed u }
{
    match u {
        Verdict::True => Verdict::False,
        Verdict::False => Verdict::True,
        Verdict::Undefined => Verdict::Undefined,
    }
}

// A filter under `not:`, by the filter there.
fn inverted(inner: Judging) -> Judging
    ensures { result ≡ work.inverse_of inner }
{
    let judged = Judged::of(opposite(inner.judged.verdict), inner.judged.tests);
    Judging { judged, ..inner }
}

// ---- the filters of a list
// How a list goes on that is judged, or passed over.
fn begin(live: bool) -> Progress
    ensures { result ≡ work.begun live }
{
    if live {
        return Progress::Plain;
    }
    Progress::Passed
}

// Whether the filters from here on are judged.
fn goes_on(p: Progress) -> bool
    ensures { result ≡ work.goes_on p }
{
    matches!(p, Progress::Plain | Progress::Unsure)
}

// A list behind a filter that did not stop it.
fn behind(p: Progress, undefined: bool) -> Progress
    ensures { result ≡ work.behind p undefined }
{
    if undefined {
        return Progress::Unsure;
    }
    p
}

fn is_false(u: Verdict) -> bool
    ensures { result ≡ work.is_falsity u }
{
    matches!(u, Verdict::False)
}

// Whether a list stops at a filter of this truth.
fn stops(join: Join, u: Verdict) -> bool
    ensures { result ≡ work.stops_at (report_join join) u }
{
    match join {
        Join::And => is_false(u),
        Join::Or => is_false(opposite(u)),
    }
}

fn is_undefined(u: Verdict) -> bool
    ensures { result ≡ work.is_undefined u }
{
    matches!(u, Verdict::Undefined)
}

// A list with one filter more.
fn joined(join: Join, p: Progress, u: Verdict) -> Progress
    ensures { result ≡ work.joined_by (report_join join) p u }
{
    if !goes_on(p) {
        return p;
    }
    if stops(join, u) {
        return Progress::Stopped;
    }
    behind(p, is_undefined(u))
}

// The truth of an empty list.
fn of_none(join: Join) -> Verdict
    ensures { result ≡ work.none_of (report_join join) }
{
    match join {
        Join::And => Verdict::True,
        Join::Or => Verdict::False,
    }
}

// The truth of a list at its end.
fn at_end(join: Join, p: Progress) -> Verdict
    ensures { result ≡ work.at_end (report_join join) p }
{
    match p {
        Progress::Plain => of_none(join),
        Progress::Unsure => Verdict::Undefined,
        Progress::Stopped => opposite(of_none(join)),
        Progress::Passed => Verdict::Undefined,
    }
}

// ---- filters and lists
// The assertion of an item, one of the items left.
fn judge_assertion(
    t: &[u8],
    w: &[u64; 256],
    v: &[u8],
    f: &[u8],
    at: usize,
    left: Left,
    tests: Tests,
) -> Result<Judging, Fault>
    requires ready { work.Ready t.now w.now v.now f.now }
    requires within { tests.made ≤ tests.budget }
    ensures { work.Judges (work.stored_outcome (type_at t.now 0) v.now) 1 left.items left.live
        tests.budget tests.made (parsing.made item (assertion_at f.now at)) result }
{
    if left.items == 0 {
        return Err(Fault::Malformed);
    }
    let Some(parts) = assertion::read_assertion(f, at) else {
        return Err(Fault::Malformed);
    };
    let after = parts.after;
    let items = left.items - 1;
    if !left.live {
        let judged = Judged::of(Verdict::Undefined, tests.made);
        return Ok(Judging {
            judged,
            after,
            items,
        });
    }
    let judged = judge_parts(t, w, v, f, parts, tests)?;
    Ok(Judging {
        judged,
        after,
        items,
    })
}

// A list that ends before a place, with so many tests made and so many items left.
fn list_end(join: Join, progress: Progress, tests: usize, after: usize, items: usize) -> Judging
    ensures { result ≡ work.judging (work.at_end (report_join join) progress) tests after items }
{
    let judged = Judged::of(at_end(join, progress), tests);
    Judging {
        judged,
        after,
        items,
    }
}

// The filter at a place, read, and judged or passed over.
#[cycle(judge)]
fn judge_filter(
    t: &[u8],
    w: &[u64; 256],
    v: &[u8],
    f: &[u8],
    at: usize,
    left: Left,
    tests: Tests,
) -> Result<Judging, Fault>
    requires ready { work.Ready t.now w.now v.now f.now }
    requires within { tests.made ≤ tests.budget }
    ensures { work.Judges (work.stored_outcome (type_at t.now 0) v.now) left.depth left.items left.live
        tests.budget tests.made (parsing.filter_at f.now at) result }
{
    let items = left.items;
    let live = left.live;
    if left.depth == 0 {
        return Err(Fault::Malformed);
    }
    let inner = Left {
        depth: left.depth - 1,
        items,
        live,
    };
    match filter::read_head(f, at) {
        Some(Head::Assertion(p)) => judge_assertion(t, w, v, f, p, inner, tests),
        Some(Head::EmptyList(join, p)) => Ok(list_end(join, begin(live), tests.made, p, items)),
        Some(Head::OpenList(join, p)) => judge_list(t, w, v, f, p, inner, join, tests),
        Some(Head::Negation(p)) => {
            let under = judge_filter(t, w, v, f, p, inner, tests)?;
            Ok(inverted(under))
        }
        None => Err(Fault::Malformed),
    }
}

// The filters of a list, from one of them on.
#[cycle(judge)]
fn judge_list(
    t: &[u8],
    w: &[u64; 256],
    v: &[u8],
    f: &[u8],
    at: usize,
    left: Left,
    join: Join,
    tests: Tests,
) -> Result<Judging, Fault>
    requires ready { work.Ready t.now w.now v.now f.now }
    requires within { tests.made ≤ tests.budget }
    ensures { work.JudgesIn (work.stored_outcome (type_at t.now 0) v.now) (report_join join) (work.begun left.live)
        left.depth left.items tests.budget tests.made (filters_at f.now at) result }
{
    let depth = left.depth;
    let budget = tests.budget;
    let mut place = at;
    let mut items = left.items;
    let mut made = tests.made;
    let mut progress = begin(left.live);
    // A cursor: each filter says where the next one starts.
    loop {
        let live = goes_on(progress);
        let here = Left { depth, items, live };
        let first = judge_filter(t, w, v, f, place, here, Tests { made, budget })?;
        progress = joined(join, progress, first.judged.verdict);
        made = first.judged.tests;
        items = first.items;
        match filter::read_tail(f, first.after) {
            Some(Tail::Another(next)) => place = next,
            Some(Tail::Closed(after)) => return Ok(list_end(join, progress, made, after, items)),
            None => return Err(Fault::Malformed),
        }
    }
}

// The filter of a whole text.
pub fn judge(t: &[u8], w: &[u64; 256], v: &[u8], f: &[u8], budget: usize) -> Result<Judged, Fault>
    requires ready { work.Ready t.now w.now v.now f.now }
    ensures { work.Evaluates (work.stored_outcome (type_at t.now 0) v.now) budget (parsing.parse filter_limits f.now) result }
{
    if !octets::utf8(f) {
        return Err(Fault::Malformed);
    }
    let left = Left {
        depth: Filter::MAX_DEPTH,
        items: Filter::MAX_ITEMS,
        live: true,
    };
    let whole = judge_filter(t, w, v, f, 0, left, Tests { made: 0, budget })?;
    if whole.after != f.len() {
        return Err(Fault::Malformed);
    }
    Ok(whole.judged)
}
