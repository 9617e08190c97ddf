// The functions of crate `capi` under their C names, as include/tezqulom.h declares them, in an archive: a crate is a library or a static library.
#![tactic(auto)]

ghost use Rattle.std.specs.Prelude.{◌≡◌};
ghost use Rattle.types.specs.Check as tables;
ghost use Rattle.value.specs.Check as values;
ghost use Rattle.value.specs.Part.{part_report};
ghost use Rattle.rules.specs.Rule.{known_rules};
ghost use Rattle.quote.specs.Quote.{quoted_report};
ghost use Rattle.escape.specs.Escape.{escaped_report};
ghost use Rattle.engine.specs.Answer as answer;
ghost use Rattle.engine.specs.Listing as listing;
ghost use Rattle.engine.specs.Paper.{limits};
ghost use Rattle.capi.specs.Numbers.{is_set, of_table, of_value, of_part, part_seen, of_listing, written_seen, of_quoting, of_escaping, of_report};

use capi::CAnswer;

#[unsafe(no_mangle)]
pub extern "C" fn tezqulom_check_table(table: &[u8]) -> CAnswer
    ensures { result ≡ of_table (tables.table_report limits.table table.now) }
{
    capi::tezqulom_check_table(table)
}

#[unsafe(no_mangle)]
pub extern "C" fn tezqulom_check_value(table: &[u8], value: &[u8]) -> CAnswer
    ensures { result ≡ of_value (values.value_report limits.table limits.value table.now value.now) }
{
    capi::tezqulom_check_value(table, value)
}

#[unsafe(no_mangle)]
pub extern "C" fn tezqulom_part(value: &[u8], place: u64, length: u64) -> CAnswer
    ensures { part_seen value.now place result ≡ of_part (part_report limits.value value.now place length) }
{
    capi::tezqulom_part(value, place, length)
}

#[unsafe(no_mangle)]
pub extern "C" fn tezqulom_list(
    table: &[u8],
    value: &[u8],
    given: u64,
    reference: &[u8],
    defaults: u64,
    room: &mut [u64],
) -> CAnswer
    ensures { written_seen result room.new
        ≡ of_listing (listing.list_report limits table.now value.now (is_set given) reference.now (is_set defaults)
        room.old) }
{
    capi::tezqulom_list(table, value, given, reference, defaults, room)
}

#[unsafe(no_mangle)]
pub extern "C" fn tezqulom_ask(table: &[u8], value: &[u8], filter: &[u8], budget: u64) -> CAnswer
    ensures { result ≡ of_report (answer.ask_report limits known_rules table.now value.now filter.now budget) }
{
    capi::tezqulom_ask(table, value, filter, budget)
}

#[unsafe(no_mangle)]
pub extern "C" fn tezqulom_quote(text: &[u8], room: &mut [u8]) -> CAnswer
    ensures { written_seen result room.new ≡ of_quoting (quoted_report text.now room.old) }
{
    capi::tezqulom_quote(text, room)
}

#[unsafe(no_mangle)]
pub extern "C" fn tezqulom_escape(text: &[u8], room: &mut [u8]) -> CAnswer
    ensures { written_seen result room.new ≡ of_escaping (escaped_report text.now room.old) }
{
    capi::tezqulom_escape(text, room)
}
