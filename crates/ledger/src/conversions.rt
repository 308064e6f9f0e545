// The calls for C that move a ledger between editions, one set for each edition that is wanted.
ghost use Rattle.std.specs.Prelude.{◌≡◌, length};
ghost use Rattle.format.specs.declared.Edition.TheVariants.{First, Second};
ghost use Rattle.format.specs.Calls.{number_of, need_of, have_of, table_id_of, length_of};
ghost use Rattle.format.specs.Convert.{convert_answer, convert_left};

use crate::answers::convert_answer;
use crate::numbers::{have_of, length_of, need_of, number_of, table_id_of};
use format::Edition;
use ledger_converter::ledger_convert;

// A ledger in edition 1, at the buffer's start; after a refusal the buffer is as it was.
#[unsafe(no_mangle)]
pub extern "C" fn sat_ledger_to_edition_1(ledger: &[u8], out: &mut [u8]) -> u32
    ensures { (result ≡ number_of (convert_answer First ledger.now (length out.old)))
        × (out.new ≡ convert_left First ledger.now out.old) }
{
    let answer = ledger_convert(Edition::First, ledger, out);
    number_of(answer)
}

// The first value of the refusal of the call above.
#[unsafe(no_mangle)]
pub extern "C" fn sat_ledger_to_edition_1_need(ledger: &[u8], out_len: usize) -> usize
    ensures { result ≡ need_of (convert_answer First ledger.now out_len) }
{
    let answer = convert_answer(Edition::First, ledger, out_len);
    need_of(answer)
}

// The second value of that refusal.
#[unsafe(no_mangle)]
pub extern "C" fn sat_ledger_to_edition_1_have(ledger: &[u8], out_len: usize) -> usize
    ensures { result ≡ have_of (convert_answer First ledger.now out_len) }
{
    let answer = convert_answer(Edition::First, ledger, out_len);
    have_of(answer)
}

// The table id of the ledger in edition 1 that is left.
#[unsafe(no_mangle)]
pub extern "C" fn sat_ledger_to_edition_1_table_id(ledger: &[u8], out_len: usize) -> u8
    ensures { result ≡ table_id_of (convert_answer First ledger.now out_len) }
{
    let answer = convert_answer(Edition::First, ledger, out_len);
    table_id_of(answer)
}

// Its length.
#[unsafe(no_mangle)]
pub extern "C" fn sat_ledger_to_edition_1_length(ledger: &[u8], out_len: usize) -> usize
    ensures { result ≡ length_of (convert_answer First ledger.now out_len) }
{
    let answer = convert_answer(Edition::First, ledger, out_len);
    length_of(answer)
}

// A ledger in edition 2, at the buffer's start; after a refusal the buffer is as it was.
#[unsafe(no_mangle)]
pub extern "C" fn sat_ledger_to_edition_2(ledger: &[u8], out: &mut [u8]) -> u32
    ensures { (result ≡ number_of (convert_answer Second ledger.now (length out.old)))
        × (out.new ≡ convert_left Second ledger.now out.old) }
{
    let answer = ledger_convert(Edition::Second, ledger, out);
    number_of(answer)
}

// The first value of the refusal of the call above.
#[unsafe(no_mangle)]
pub extern "C" fn sat_ledger_to_edition_2_need(ledger: &[u8], out_len: usize) -> usize
    ensures { result ≡ need_of (convert_answer Second ledger.now out_len) }
{
    let answer = convert_answer(Edition::Second, ledger, out_len);
    need_of(answer)
}

// The second value of that refusal.
#[unsafe(no_mangle)]
pub extern "C" fn sat_ledger_to_edition_2_have(ledger: &[u8], out_len: usize) -> usize
    ensures { result ≡ have_of (convert_answer Second ledger.now out_len) }
{
    let answer = convert_answer(Edition::Second, ledger, out_len);
    have_of(answer)
}

// The table id of the ledger in edition 2 that is left.
#[unsafe(no_mangle)]
pub extern "C" fn sat_ledger_to_edition_2_table_id(ledger: &[u8], out_len: usize) -> u8
    ensures { result ≡ table_id_of (convert_answer Second ledger.now out_len) }
{
    let answer = convert_answer(Edition::Second, ledger, out_len);
    table_id_of(answer)
}

// Its length.
#[unsafe(no_mangle)]
pub extern "C" fn sat_ledger_to_edition_2_length(ledger: &[u8], out_len: usize) -> usize
    ensures { result ≡ length_of (convert_answer Second ledger.now out_len) }
{
    let answer = convert_answer(Edition::Second, ledger, out_len);
    length_of(answer)
}
