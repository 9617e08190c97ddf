// A plan: one lent array of numbers, the task first, then four for each identifier of a reference.
#![tactic(auto)]

ghost use Rattle.std.specs.Prelude.{◌≡◌, true, false, [], ◌≤◌, ◌<◌, ◌+◌, ◌*◌, length, get_or, set, ltb};
ghost use Rattle.std.specs.Prelude.{None, Some};
ghost use Rattle.octets.specs.Pick.{both};
ghost use Rattle.octets.specs.Octets.{part as octets-part};
ghost use Rattle.octets.specs.Inner.Answers.{between};
ghost use Rattle.rows.specs.Paper.{table_limits};
ghost use Rattle.rows.specs.Row.{members_at};
ghost use Rattle.types.specs.Admitted.{admitted};
ghost use Rattle.table.specs.Inner.Rows.{table_rows, MemberRow, place_at, type_at};
ghost use Rattle.table.specs.Inner.Words.{Worded};
ghost use Rattle.reference.specs.Allowed.{of_type};
ghost use Rattle.reference.specs.Inner.Work as reference;
ghost use Rattle.bitnames.specs.Inner.Sets.{names_after};
ghost use Rattle.rules.specs.Rule as rule;
ghost use Rattle.rules.specs.Inner.Answers.{syntax_of, meant, conforms};
ghost use Rattle.plan.specs.Inner.Test as tests;
ghost use Rattle.plan.specs.Inner.Operand as operands;
ghost use Rattle.plan.specs.Inner.Task as tasks;
ghost use Rattle.plan.specs.Inner.Plan as plan;
ghost use Rattle.plan.specs.Inner.Sort as sort;
ghost use Rattle.plan.specs.Inner.Resolve as resolve;

use der::Kind;
use integers::Bound;
use reference::{Step, Target};
use rules::{Rule, Syntax};

// The sorts of steps: the end, a member, an alternative, a position, a position from the end, the count, all elements.
#[derive(Clone, Copy)]
pub struct Sort;

impl Sort {
    pub const END: usize = 0;

    pub const MEMBER: usize = 1;

    pub const ALTERNATIVE: usize = 2;

    pub const POSITION: usize = 3;

    pub const FROM_END: usize = 4;

    pub const COUNT: usize = 5;

    pub const ALL: usize = 6;
}

// The comparisons of a test: any value, none, a truth; an integer equal to one, to one below or above all that can be stored, or less; arcs; octets equal or
// less; bits of hexadecimal or binary digits; a string, folded or exact; a time equal or earlier; bits with names, of hexadecimal or binary digits, or listed;
// a distinguished name; an RDN.
#[derive(Clone, Copy)]
pub struct Comparison;

impl Comparison {
    pub const ANY: usize = 0;

    pub const NONE: usize = 1;

    pub const TRUE: usize = 2;

    pub const FALSE: usize = 3;

    pub const SAME_INTEGER: usize = 4;

    pub const SAME_UNDER: usize = 5;

    pub const SAME_OVER: usize = 6;

    pub const LESS_INTEGER: usize = 7;

    pub const LESS_UNDER: usize = 8;

    pub const LESS_OVER: usize = 9;

    pub const ARCS: usize = 10;

    pub const OCTETS: usize = 11;

    pub const LESS_OCTETS: usize = 12;

    pub const HEXADECIMAL: usize = 13;

    pub const BINARY: usize = 14;

    pub const FOLDED: usize = 15;

    pub const EXACT: usize = 16;

    pub const TIME: usize = 17;

    pub const EARLIER: usize = 18;

    pub const NAMED_HEXADECIMAL: usize = 19;

    pub const NAMED_BINARY: usize = 20;

    pub const LISTED: usize = 21;

    pub const NAME: usize = 22;

    pub const RDN: usize = 23;
}

// A test: its comparison, and the number that it is with.
#[derive(Clone, Copy)]
pub struct TestNumbers {
    pub comparison: usize,
    pub number: usize,
}

// How a value text makes an operand: as it stands; what stands between its quotes; the same as prepared, folded or not; the same read as a name, or as an RDN.
#[derive(Clone, Copy)]
pub enum Form {
    Whole,
    Quoted,
    Prepared(bool),
    Name,
    Rdn,
}

// ---- the numbers of step k
// Its sort.
pub fn sort_at(q: &[usize; 72], k: usize) -> usize
    requires { plan.Low k }
    ensures { result ≡ plan.sort_at q.now k }
{
    q[4 * k]
}

// A row, or a position.
pub fn first_at(q: &[usize; 72], k: usize) -> usize
    requires { plan.Low k }
    ensures { result ≡ plan.first_at q.now k }
{
    q[4 * k + 1]
}

// The index of a member or alternative.
pub fn second_at(q: &[usize; 72], k: usize) -> usize
    requires { plan.Low k }
    ensures { result ≡ plan.second_at q.now k }
{
    q[4 * k + 2]
}

// What an absent member comes to.
pub fn absent_at(q: &[usize; 72], k: usize) -> usize
    requires { plan.Low k }
    ensures { result ≡ plan.absent_at q.now k }
{
    q[4 * k + 3]
}

// ---- the task
pub fn task(q: &[usize; 72]) -> usize
    ensures { result ≡ get_or q.now 0 0 }
{
    q[0]
}

// The limit of a count, or the budget of a test.
pub fn limit(q: &[usize; 72]) -> usize
    ensures { result ≡ get_or q.now 1 0 }
{
    q[1]
}

// The comparison of a test.
pub fn comparing(q: &[usize; 72]) -> usize
    ensures { result ≡ get_or q.now 2 0 }
{
    q[2]
}

// The number that it is with.
pub fn compared_number(q: &[usize; 72]) -> usize
    ensures { result ≡ get_or q.now 3 0 }
{
    q[3]
}

// ---- the operand
fn syntax_form(syntax: Syntax) -> Form
    ensures { result ≡ operands.syntax_form (syntax_of syntax) }
{
    match syntax {
        Syntax::Booleans
        | Syntax::Integers
        | Syntax::ObjectIdentifiers
        | Syntax::OctetStrings
        | Syntax::BitStrings => Form::Whole,
        Syntax::Strings(fold) => Form::Prepared(fold),
        Syntax::Times => Form::Quoted,
        Syntax::Names => Form::Name,
        Syntax::Rdns => Form::Rdn,
    }
}

fn rule_form(rule: Rule) -> Form
    ensures { result ≡ operands.form_of (meant rule) }
{
    match rule {
        Rule::Present => Form::Whole,
        Rule::Equal(syntax) | Rule::Less(syntax) => syntax_form(syntax),
    }
}

// The part of a value text that its operand is made of.
#[tactic(auto, unfolding(crate::specs::Inner::Operand::Part))]
pub fn operand_part(rule: Rule, text: &[u8]) -> &[u8]
    ensures part { operands.Part (meant rule) text.now result.now }
    ensures short { length result.now ≤ length text.now }
{
    match rule_form(rule) {
        Form::Whole => text,
        Form::Quoted | Form::Prepared(_) | Form::Name | Form::Rdn => strings::quoted_part(text),
    }
}

// Whether that part is the operand as it stands.
#[tactic(auto, unfolding(crate::specs::Inner::Operand::stands))]
pub fn is_operand(rule: Rule, part: &[u8]) -> bool
    ensures { result ≡ operands.stands (meant rule) part.now }
{
    match rule_form(rule) {
        Form::Whole | Form::Quoted => true,
        Form::Prepared(_) => strings::is_plain(part),
        Form::Name | Form::Rdn => false,
    }
}

// Writes the operand of a conforming text, of the part that it is made of, where that isn't the operand as it stands; how many octets it has.
pub fn write_operand(rule: Rule, text: &[u8], part: &[u8], memory: &mut [u8; 5120]) -> usize
    requires short { length part.now ≤ 2048 }
    requires conforming { conforms (meant rule) text.now ≡ true }
    requires part { operands.Part (meant rule) text.now part.now }
    requires other { operands.stands (meant rule) part.now ≡ false }
    ensures { octets-part memory.new 0 result ≡ operands.operand_of (meant rule) text.now }
{
    match rule_form(rule) {
        Form::Whole | Form::Quoted => 0,
        Form::Prepared(fold) => strings::prepare(part, fold, memory),
        Form::Name => nameoperand::write_name(part, memory),
        Form::Rdn => nameoperand::write_rdn(part, memory),
    }
}

// ---- the test of a rule with an operand
fn alone(comparison: usize) -> TestNumbers
    ensures { result ≡ record { comparison = comparison; number = 0 } }
{
    TestNumbers {
        comparison,
        number: 0,
    }
}

#[tactic(auto, unfolding(crate::specs::Inner::Test::test_of, crate::specs::Inner::Test::equal_test))]
fn truth_test(x: &[u8]) -> TestNumbers
    ensures { tests.report_test result ≡ tests.equal_test rule.booleans x.now }
{
    if octets::same(x, b"TRUE") {
        return alone(Comparison::TRUE);
    }
    alone(Comparison::FALSE)
}

#[tactic(auto, unfolding(crate::specs::Inner::Test::test_of))]
fn same_test(bound: Bound) -> TestNumbers
    ensures { tests.report_test result ≡ tests.same_integer bound }
{
    match bound {
        Bound::At(n) => TestNumbers {
            comparison: Comparison::SAME_INTEGER,
            number: n as usize,
        },
        Bound::Under => alone(Comparison::SAME_UNDER),
        Bound::Over => alone(Comparison::SAME_OVER),
    }
}

#[tactic(auto, unfolding(crate::specs::Inner::Test::test_of))]
fn less_test(bound: Bound) -> TestNumbers
    ensures { tests.report_test result ≡ tests.less_integer bound }
{
    match bound {
        Bound::At(n) => TestNumbers {
            comparison: Comparison::LESS_INTEGER,
            number: n as usize,
        },
        Bound::Under => alone(Comparison::LESS_UNDER),
        Bound::Over => alone(Comparison::LESS_OVER),
    }
}

// Arcs that can't be stored are equal to none.
#[tactic(auto, unfolding(crate::specs::Inner::Test::test_of, crate::specs::Inner::Test::equal_test))]
fn arcs_test(x: &[u8]) -> TestNumbers
    ensures { tests.report_test result ≡ tests.equal_test rule.object_identifiers x.now }
{
    if dotted::fits_stored(x) {
        return alone(Comparison::ARCS);
    }
    alone(Comparison::NONE)
}

#[tactic(auto, unfolding(crate::specs::Inner::Test::test_of, crate::specs::Inner::Test::equal_test))]
fn bits_test(x: &[u8]) -> TestNumbers
    ensures { tests.report_test result ≡ tests.equal_test rule.bit_strings x.now }
{
    if digits::is_bit_text(x) {
        return alone(Comparison::BINARY);
    }
    alone(Comparison::HEXADECIMAL)
}

#[tactic(auto, unfolding(crate::specs::Inner::Test::test_of))]
fn string_test(fold: bool) -> TestNumbers
    ensures { tests.report_test result ≡ tests.string fold }
{
    if fold {
        return alone(Comparison::FOLDED);
    }
    alone(Comparison::EXACT)
}

#[tactic(auto, unfolding(crate::specs::Inner::Test::test_of, crate::specs::Inner::Test::equal_test))]
fn equal_test(syntax: Syntax, x: &[u8]) -> TestNumbers
    ensures { tests.report_test result ≡ tests.equal_test (syntax_of syntax) x.now }
{
    match syntax {
        Syntax::Booleans => truth_test(x),
        Syntax::Integers => same_test(integers::bound_of(x)),
        Syntax::ObjectIdentifiers => arcs_test(x),
        Syntax::OctetStrings => alone(Comparison::OCTETS),
        Syntax::BitStrings => bits_test(x),
        Syntax::Strings(fold) => string_test(fold),
        Syntax::Times => alone(Comparison::TIME),
        Syntax::Names => alone(Comparison::NAME),
        Syntax::Rdns => alone(Comparison::RDN),
    }
}

#[tactic(auto, unfolding(crate::specs::Inner::Test::test_of, crate::specs::Inner::Test::less_test))]
fn ordering_test(syntax: Syntax, x: &[u8]) -> TestNumbers
    ensures { tests.report_test result ≡ tests.less_test (syntax_of syntax) x.now }
{
    match syntax {
        Syntax::Integers => less_test(integers::bound_of(x)),
        Syntax::OctetStrings => alone(Comparison::LESS_OCTETS),
        Syntax::Times => alone(Comparison::EARLIER),
        Syntax::Booleans
        | Syntax::ObjectIdentifiers
        | Syntax::BitStrings
        | Syntax::Strings(_)
        | Syntax::Names
        | Syntax::Rdns => alone(Comparison::NONE),
    }
}

#[tactic(auto, unfolding(crate::specs::Inner::Test::test_of, crate::specs::Inner::Test::test_for))]
fn test_for(rule: Rule, x: &[u8]) -> TestNumbers
    ensures { tests.report_test result ≡ tests.test_for (meant rule) x.now }
{
    match rule {
        Rule::Present => alone(Comparison::ANY),
        Rule::Equal(syntax) => equal_test(syntax, x),
        Rule::Less(syntax) => ordering_test(syntax, x),
    }
}

// ---- the test of a rule of bits on the type of a row
// Bits with names, by a comparison; an ordering rule accepts none.
#[tactic(auto, unfolding(crate::specs::Inner::Test::test_of))]
fn named_test(rule: Rule, comparison: usize, number: usize) -> TestNumbers
    ensures { tests.report_test result ≡ tests.of_rule (meant rule) (tests.test_of comparison number) }
{
    match rule {
        Rule::Present => alone(Comparison::ANY),
        Rule::Equal(_) => TestNumbers { comparison, number },
        Rule::Less(_) => alone(Comparison::NONE),
    }
}

// Digits, their trailing zeros counted off once, or a list of names, each looked up once.
fn names_test(rule: Rule, t: &[u8], w: &[u64; 256], row: usize, x: &[u8]) -> Option<TestNumbers>
    requires worded { Worded t.now w.now }
    requires here { row < length (table_rows t.now) }
    ensures { tests.report_bits result ≡ tests.bits_test_by (meant rule) (Some (names_after t.now row)) x.now }
{
    if digits::is_bit_text(x) {
        let count = digits::significant(digits::operand(x));
        return Some(named_test(rule, Comparison::NAMED_BINARY, count));
    }
    if digits::is_hex_string(x) {
        let count = digits::significant(digits::operand(x));
        return Some(named_test(rule, Comparison::NAMED_HEXADECIMAL, count));
    }
    let set = bitnames::listed_bits(t, w, row, x)?;
    Some(named_test(rule, Comparison::LISTED, set as usize))
}

// Digits, where there are no names.
fn digits_test(rule: Rule, x: &[u8]) -> Option<TestNumbers>
    ensures { tests.report_bits result ≡ tests.bits_test_by (meant rule) None x.now }
{
    if !digits::is_bits(x) {
        return None;
    }
    Some(test_for(rule, x))
}

pub fn bits_test_at(
    rule: Rule,
    t: &[u8],
    w: &[u64; 256],
    row: usize,
    x: &[u8],
) -> Option<TestNumbers>
    requires worded { Worded t.now w.now }
    requires here { row < length (table_rows t.now) }
    ensures { tests.report_bits result ≡ tests.bits_test (meant rule) (of_type (type_at t.now row)) x.now }
{
    if !rules::suits(rule, t, w, row) {
        return None;
    }
    if table::kind(t, w, row) == Kind::NAMED_BIT_STRING {
        return names_test(rule, t, w, row, x);
    }
    digits_test(rule, x)
}

// ---- writing the task
// A count up to a limit.
pub fn plan_tally(q: &mut [usize; 72], limit: usize)
    ensures { tasks.task_of q.new ≡ tasks.counting limit }
{
    q[0] = 0;
    q[1] = limit;
}

// A test with a rule and an operand within a budget.
pub fn plan_test(q: &mut [usize; 72], rule: Rule, x: &[u8], budget: usize)
    ensures { tasks.task_of q.new ≡ tasks.testing (tests.test_for (meant rule) x.now) budget }
{
    set_test(q, test_for(rule, x), budget);
}

// A test within a budget: the steps stay.
pub fn set_test(q: &mut [usize; 72], test: TestNumbers, budget: usize)
    ensures task { tasks.task_of q.new ≡ tasks.testing (tests.report_test test) budget }
    ensures steps { plan.SameSteps q.old q.new }
{
    q[0] = 2;
    q[1] = budget;
    q[2] = test.comparison;
    q[3] = test.number;
}

// The listing of what a plan counts: the same steps stand for it.
pub fn plan_listing(q: &mut [usize; 72])
    ensures task { tasks.task_of q.new ≡ tasks.listing }
    ensures planned { plan.Relisted q.old q.new }
{
    q[0] = 1;
}

// ---- what a task lets pass
fn numbered_bound(k: usize, n: usize) -> Bound
    ensures { result ≡ tests.bound_numbered k n }
{
    match k {
        0 => Bound::At(n as u64),
        1 => Bound::Under,
        _ => Bound::Over,
    }
}

// Any value, none, a truth.
#[tactic(auto, unfolding(crate::specs::Inner::Test::accepted))]
fn accepts_plain(comparison: usize, c: &[u8]) -> bool
    ensures { result ≡ tests.accepted (tests.plain_test comparison) [] c.now }
{
    match comparison {
        Comparison::ANY => true,
        Comparison::NONE => false,
        Comparison::TRUE => der::read_boolean(c),
        _ => !der::read_boolean(c),
    }
}

// Arcs, octets, bits.
#[tactic(auto, unfolding(crate::specs::Inner::Test::accepted))]
fn accepts_digits(comparison: usize, x: &[u8], c: &[u8]) -> bool
    ensures { result ≡ tests.accepted (tests.digit_test comparison) x.now c.now }
{
    match comparison {
        Comparison::ARCS => dotted::same_arcs(x, c),
        Comparison::OCTETS => digits::same_hex(c, digits::operand(x)),
        Comparison::LESS_OCTETS => digits::less_hex(c, digits::operand(x)),
        _ => digits::same_bits(c, digits::operand(x), comparison == Comparison::HEXADECIMAL),
    }
}

// Bits with names.
#[tactic(auto, unfolding(crate::specs::Inner::Test::accepted))]
fn accepts_named(comparison: usize, n: usize, x: &[u8], c: &[u8]) -> bool
    ensures { result ≡ tests.accepted (tests.named_test comparison n) x.now c.now }
{
    if comparison == Comparison::LISTED {
        return digits::same_mask(c, n as u64);
    }
    digits::same_named_bits(
        c,
        octets::part(digits::operand(x), 0, n),
        comparison == Comparison::NAMED_HEXADECIMAL,
    )
}

// Distinguished names, RDNs.
#[tactic(auto, unfolding(crate::specs::Inner::Test::accepted))]
fn accepts_name(comparison: usize, x: &[u8], c: &[u8]) -> bool
    ensures { result ≡ tests.accepted (tests.name_test comparison) x.now c.now }
{
    if comparison == Comparison::NAME {
        return namematch::same_name(c, x);
    }
    namematch::same_single(c, x)
}

// Times, strings.
#[tactic(auto, unfolding(crate::specs::Inner::Test::accepted))]
fn accepts_text(comparison: usize, x: &[u8], c: &[u8]) -> bool
    ensures { result ≡ tests.accepted (tests.text_test comparison) x.now c.now }
{
    match comparison {
        Comparison::TIME => der::same_time(der::read_time(c), der::read_time(x)),
        Comparison::EARLIER => der::earlier(der::read_time(c), der::read_time(x)),
        _ => strings::same_prepared(c, x, comparison == Comparison::FOLDED),
    }
}

// All that is no plain test and no integer.
fn accepts_octets(comparison: usize, n: usize, x: &[u8], c: &[u8]) -> bool
    requires { 10 ≤ comparison }
    ensures { result ≡ tests.accepted (tests.test_of comparison n) x.now c.now }
{
    if comparison < Comparison::FOLDED {
        return accepts_digits(comparison, x, c);
    }
    if comparison < Comparison::NAMED_HEXADECIMAL {
        return accepts_text(comparison, x, c);
    }
    if comparison < Comparison::NAME {
        return accepts_named(comparison, n, x, c);
    }
    accepts_name(comparison, x, c)
}

// Whether a test accepts contents. Slices that are handed on are made anew where they are: so those that came stay in registers, and an integer is compared
// without a look at memory.
fn accepts(comparison: usize, n: usize, x: &[u8], c: &[u8]) -> bool
    ensures { result ≡ tests.accepted (tests.test_of comparison n) x.now c.now }
{
    if comparison < Comparison::SAME_INTEGER {
        return accepts_plain(comparison, c);
    }
    if comparison < Comparison::LESS_INTEGER {
        return integers::same_contents(c, numbered_bound(comparison - Comparison::SAME_INTEGER, n));
    }
    if comparison < Comparison::ARCS {
        return integers::less_contents(c, numbered_bound(comparison - Comparison::LESS_INTEGER, n));
    }
    accepts_octets(
        comparison,
        n,
        octets::part(x, 0, x.len()),
        octets::part(c, 0, c.len()),
    )
}

// Whether the task lets contents pass: a test by its comparison with the operand.
pub fn passes_contents(q: &[usize; 72], x: &[u8], c: &[u8]) -> bool
    ensures { result ≡ tasks.passes_contents (tasks.task_of q.now) x.now c.now }
{
    task(q) < 2 || accepts(comparing(q), compared_number(q), x, c)
}

fn accepts_count(comparison: usize, number: usize, n: u64) -> bool
    ensures { result ≡ tests.accepted_count (tests.test_of comparison number) n }
{
    if comparison < Comparison::SAME_INTEGER {
        return comparison == Comparison::ANY;
    }
    if comparison < Comparison::LESS_INTEGER {
        return integers::same_count(
            n,
            numbered_bound(comparison - Comparison::SAME_INTEGER, number),
        );
    }
    if comparison < Comparison::ARCS {
        return integers::less_count(
            n,
            numbered_bound(comparison - Comparison::LESS_INTEGER, number),
        );
    }
    false
}

// Whether it lets a count pass.
pub fn passes_count(q: &[usize; 72], n: usize) -> bool
    ensures { result ≡ tasks.passes_count (tasks.task_of q.now) n }
{
    task(q) < 2 || accepts_count(comparing(q), compared_number(q), n as u64)
}

// ---- resolution of a reference
// The numbers of one identifier: its sort, two numbers, the row that it leads to and the place where those after it start. Or the count, the last one; or
// it is not allowed.
#[derive(Clone, Copy)]
pub enum Planning {
    To(usize, usize, usize, usize, usize),
    Count,
    No,
}

// The first member of a row with the name that stands from a to b; the number of members where none has it.
fn find_named(t: &[u8], w: &[u64; 256], row: usize, r: &[u8], a: usize, b: usize) -> usize
    requires worded { Worded t.now w.now }
    requires here { row < length (table_rows t.now) }
    ensures { result ≡ reference.first_named t.now (table_rows t.now) row (between r.now a b) }
{
    let n = table::members(t, w, row);
    for j in 0..n {
        if reference::is_named(t, table::place(t, w, row + 1 + j), r, a, b) {
            return j;
        }
    }
    n
}

// Member j of a row.
#[tactic(auto, unfolding(crate::specs::Inner::Resolve::member_plan))]
fn plan_member(t: &[u8], w: &[u64; 256], row: usize, j: usize, next: usize) -> Planning
    requires worded { Worded t.now w.now }
    requires here { row < length (table_rows t.now) }
    requires one { j < members_at t.now (place_at t.now row) }
    ensures { result ≡ resolve.member_plan t.now row j next }
{
    let to = table::named(t, w, row + 1 + j);
    match table::kind(t, w, row) {
        Kind::SEQUENCE => Planning::To(Sort::MEMBER, row, j, to, next),
        Kind::CHOICE => Planning::To(Sort::ALTERNATIVE, row, j, to, next),
        _ => Planning::No,
    }
}

// A name that stands from a to b.
fn plan_name(
    t: &[u8],
    w: &[u64; 256],
    row: usize,
    r: &[u8],
    a: usize,
    b: usize,
    next: usize,
) -> Planning
    requires worded { Worded t.now w.now }
    requires here { row < length (table_rows t.now) }
    ensures { result ≡ resolve.name_plan t.now row (between r.now a b) next }
{
    let n = table::members(t, w, row);
    let j = find_named(t, w, row, r, a, b);
    if n <= j {
        return Planning::No;
    }
    plan_member(t, w, row, j, next)
}

// A position, a position from the end, or all.
fn plan_list(t: &[u8], w: &[u64; 256], row: usize, sort: usize, n: usize, next: usize) -> Planning
    requires worded { Worded t.now w.now }
    requires here { row < length (table_rows t.now) }
    ensures { result ≡ resolve.list_plan t.now row sort n next }
{
    if !rows::is_list(table::kind(t, w, row)) {
        return Planning::No;
    }
    Planning::To(sort, n, 0, table::named(t, w, row), next)
}

// The count, which has to be the last.
#[tactic(auto, unfolding(crate::specs::Inner::Resolve::count_plan))]
fn plan_count(t: &[u8], w: &[u64; 256], row: usize, last: bool) -> Planning
    requires worded { Worded t.now w.now }
    requires here { row < length (table_rows t.now) }
    ensures { result ≡ resolve.count_plan t.now row last }
{
    if last && rows::is_list(table::kind(t, w, row)) {
        return Planning::Count;
    }
    Planning::No
}

// The identifier at place k of a reference, on the type of a row.
fn plan_id(t: &[u8], w: &[u64; 256], r: &[u8], k: usize, row: usize) -> Planning
    requires worded { Worded t.now w.now }
    requires admitted { admitted table_limits t.now ≡ true }
    requires here { row < length (table_rows t.now) }
    requires inside { k ≤ length r.now }
    ensures { resolve.Plans t.now r.now k row result }
{
    match reference::next_id(r, k) {
        Step::Name(a, b, next) => plan_name(t, w, row, r, a, b, next),
        Step::Position(n, next) => plan_list(t, w, row, Sort::POSITION, n, next),
        Step::FromEnd(n, next) => plan_list(t, w, row, Sort::FROM_END, n, next),
        Step::Count(next) => plan_count(t, w, row, r.len() < next),
        Step::All(next) => plan_list(t, w, row, Sort::ALL, 0, next),
        Step::End | Step::Bad => Planning::No,
    }
}

// ---- the numbers of a step
fn write(q: &mut [usize; 72], step: usize, sort: usize, first: usize, second: usize, absent: usize)
    requires { plan.Within step }
    ensures { q.new ≡ resolve.written step sort first second absent q.old }
{
    q[4 * step] = sort;
    q[4 * step + 1] = first;
    q[4 * step + 2] = second;
    q[4 * step + 3] = absent;
}

// The end of the steps.
fn write_end(q: &mut [usize; 72], step: usize)
    requires { plan.Low step }
    ensures { q.new ≡ set q.old (4 * step) sort.end }
{
    q[4 * step] = Sort::END;
}

// Whether an absent member comes to its default: where defaults are on, and it is the last that is named.
fn is_on(defaults: bool, size: usize, next: usize) -> bool
    ensures { result ≡ both defaults (ltb size next) }
{
    defaults && size < next
}

// What the absent member of a row comes to.
fn absent_member(t: &[u8], w: &[u64; 256], q: &[usize; 72], x: &[u8], row: usize) -> usize
    requires worded { Worded t.now w.now }
    requires here { row < length (table_rows t.now) }
    requires member { MemberRow t.now row }
    ensures { result ≡ resolve.last_absent t.now (tasks.task_of q.now) x.now row }
{
    if table::presence(t, w, row) != 2 {
        return 0;
    }
    if passes_contents(q, x, rows::default_at(t, table::place(t, w, row))) {
        return 2;
    }
    1
}

// The same by the numbers of a step.
#[tactic(auto, unfolding(crate::specs::Inner::Resolve::absent_for))]
fn absent_step(
    t: &[u8],
    w: &[u64; 256],
    q: &[usize; 72],
    x: &[u8],
    on: bool,
    sort: usize,
    first: usize,
    second: usize,
) -> usize
    requires worded { Worded t.now w.now }
    requires member { resolve.NamesMember t.now sort first second }
    ensures { result ≡ resolve.absent_for t.now (tasks.task_of q.now) x.now on sort first second }
{
    if !on || sort != Sort::MEMBER {
        return 0;
    }
    absent_member(t, w, q, x, first + 1 + second)
}

// ---- along a reference
// Where the resolution of a reference stands: on the type of a row, at a place of the reference, at a step of the plan.
#[derive(Clone, Copy)]
pub struct Point {
    pub row: usize,
    pub place: usize,
    pub step: usize,
}

// Where one identifier leads: to another row, with the place where those after it start; to the count; or it is not allowed.
#[derive(Clone, Copy)]
pub enum Resolved {
    On(usize, usize),
    Count,
    No,
}

fn plan_next(
    t: &[u8],
    w: &[u64; 256],
    q: &mut [usize; 72],
    r: &[u8],
    x: &[u8],
    defaults: bool,
    here: Point,
) -> Resolved
    requires worded { Worded t.now w.now }
    requires admitted { admitted table_limits t.now ≡ true }
    requires resolving { resolve.Resolving t.now r.now x.now defaults q.old here.row here.place here.step }
    requires inside { here.place ≤ length r.now }
    ensures nexts { resolve.Nexts t.now r.now x.now defaults q.new here.place here.step result }
    ensures task { tasks.task_of q.new ≡ tasks.task_of q.old }
{
    match plan_id(t, w, r, here.place, here.row) {
        Planning::To(sort, first, second, to, next) => {
            let on = is_on(defaults, r.len(), next);
            let absent = absent_step(t, w, q, x, on, sort, first, second);
            write(q, here.step, sort, first, second, absent);
            Resolved::On(to, next)
        }
        Planning::Count => {
            write(q, here.step, Sort::COUNT, 0, 0, 0);
            Resolved::Count
        }
        Planning::No => Resolved::No,
    }
}

// All identifiers, from row 0 on.
fn follow(
    t: &[u8],
    w: &[u64; 256],
    q: &mut [usize; 72],
    r: &[u8],
    x: &[u8],
    defaults: bool,
) -> Option<Target>
    requires worded { Worded t.now w.now }
    requires admitted { admitted table_limits t.now ≡ true }
    ensures leads { reference.LeadsAlong table_limits.chain t.now (table_rows t.now) (reference.ids_at r.now 0) result }
    ensures within { reference.row_within (table_rows t.now) result ≡ true }
    ensures planned { resolve.Follows t.now r.now x.now defaults q.new result }
    ensures task { tasks.task_of q.new ≡ tasks.task_of q.old }
{
    let mut row = 0;
    let mut place = 0;
    let mut step = 1;
    // A cursor: each identifier says where the next one starts.
    while place <= r.len() {
        match plan_next(t, w, q, r, x, defaults, Point { row, place, step }) {
            Resolved::On(to, next) => {
                row = to;
                place = next;
                step += 1;
            }
            Resolved::Count => return Some(Target::Count),
            Resolved::No => return None,
        }
    }
    write_end(q, step);
    Some(Target::Row(row))
}

// Writes the steps of a reference, where one is given, on the type of row 0, for the plan's task with the operand; what it leads to, or nothing, where
// it is malformed or not allowed.
pub fn resolve(
    t: &[u8],
    w: &[u64; 256],
    q: &mut [usize; 72],
    given: bool,
    r: &[u8],
    x: &[u8],
    defaults: bool,
) -> Option<Target>
    requires worded { Worded t.now w.now }
    requires admitted { admitted table_limits t.now ≡ true }
    ensures leads { reference.Leads table_limits.chain t.now (table_rows t.now) given r.now result }
    ensures within { reference.row_within (table_rows t.now) result ≡ true }
    ensures planned { resolve.Resolves t.now given r.now x.now defaults q.new result }
    ensures task { tasks.task_of q.new ≡ tasks.task_of q.old }
{
    if !given {
        write_end(q, 1);
        return Some(Target::Row(0));
    }
    follow(t, w, q, r, x, defaults)
}
