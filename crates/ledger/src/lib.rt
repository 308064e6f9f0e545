// The ledger's writers and reader, the plain and the kept body, a ledger in the other edition, a ledger without
// covariance, the entries' ids and the order of clocks, for C. The call that fills a buffer returns 0 or the refusal's
// number; the further calls take the same bytes and the buffer's length, write nothing, and give the answer's other
// numbers, 0 where there is none. The order of clocks refuses nothing. Each edition has calls of its own, since C's
// exported names stay.
#![tactic(auto)]

ghost use Rattle.std.specs.Prelude.{◌≡◌, length};
ghost use Rattle.format.specs.declared.Edition.TheVariants.{First, Second};
ghost use Rattle.format.specs.Calls.{number_of, need_of, have_of, table_id_of, length_of, write_answer, write_left, read_answer, read_left};
ghost use Rattle.plain_body.specs.Bodies.{body_answer, body_left};
ghost use Rattle.entry_ids.specs.Ids.{ids_answer, ids_left};
ghost use Rattle.clock_order.specs.Order.{clock_order, order_number};

use crate::answers::{body_answer, read_answer, write_answer};
use crate::numbers::{have_of, length_of, need_of, number_of, table_id_of};
use clock_order::clock_order;
use entry_ids::{entry_ids, entry_ids_answer};
use format::Edition;
use ledger_reader::ledger_read;
use ledger_writer::ledger_write;
use plain_body::edition_body;

mod answers;
mod conversions;
mod copies;
mod numbers;

// The ledger of a body in edition 1, at the buffer's start; after a refusal the buffer is as it was.
#[unsafe(no_mangle)]
pub extern "C" fn sat_ledger_write(table_id: u8, body: &[u8], out: &mut [u8]) -> u32
    ensures { (result ≡ number_of (write_answer First table_id body.now (length out.old))) × (out.new ≡ write_left First table_id body.now out.old) }
{
    let answer = ledger_write(Edition::First, table_id, body, out);
    number_of(answer)
}

// The first value of a refusal by the writer of edition 1.
#[unsafe(no_mangle)]
pub extern "C" fn sat_ledger_write_need(table_id: u8, body: &[u8], out_len: usize) -> usize
    ensures { result ≡ need_of (write_answer First table_id body.now out_len) }
{
    let answer = write_answer(Edition::First, table_id, body, out_len);
    need_of(answer)
}

// The second value of a refusal by the writer of edition 1.
#[unsafe(no_mangle)]
pub extern "C" fn sat_ledger_write_have(table_id: u8, body: &[u8], out_len: usize) -> usize
    ensures { result ≡ have_of (write_answer First table_id body.now out_len) }
{
    let answer = write_answer(Edition::First, table_id, body, out_len);
    have_of(answer)
}

// The table id in the ledger that the writer of edition 1 leaves.
#[unsafe(no_mangle)]
pub extern "C" fn sat_ledger_write_table_id(table_id: u8, body: &[u8], out_len: usize) -> u8
    ensures { result ≡ table_id_of (write_answer First table_id body.now out_len) }
{
    let answer = write_answer(Edition::First, table_id, body, out_len);
    table_id_of(answer)
}

// The length of the ledger that the writer of edition 1 leaves.
#[unsafe(no_mangle)]
pub extern "C" fn sat_ledger_write_length(table_id: u8, body: &[u8], out_len: usize) -> usize
    ensures { result ≡ length_of (write_answer First table_id body.now out_len) }
{
    let answer = write_answer(Edition::First, table_id, body, out_len);
    length_of(answer)
}

// The ledger of a body in edition 2, at the buffer's start; after a refusal the buffer is as it was.
#[unsafe(no_mangle)]
pub extern "C" fn sat_ledger_write_edition_2(table_id: u8, body: &[u8], out: &mut [u8]) -> u32
    ensures { (result ≡ number_of (write_answer Second table_id body.now (length out.old))) × (out.new ≡ write_left Second table_id body.now out.old) }
{
    let answer = ledger_write(Edition::Second, table_id, body, out);
    number_of(answer)
}

// The first value of a refusal by the writer of edition 2.
#[unsafe(no_mangle)]
pub extern "C" fn sat_ledger_write_edition_2_need(
    table_id: u8,
    body: &[u8],
    out_len: usize,
) -> usize
    ensures { result ≡ need_of (write_answer Second table_id body.now out_len) }
{
    let answer = write_answer(Edition::Second, table_id, body, out_len);
    need_of(answer)
}

// The second value of a refusal by the writer of edition 2.
#[unsafe(no_mangle)]
pub extern "C" fn sat_ledger_write_edition_2_have(
    table_id: u8,
    body: &[u8],
    out_len: usize,
) -> usize
    ensures { result ≡ have_of (write_answer Second table_id body.now out_len) }
{
    let answer = write_answer(Edition::Second, table_id, body, out_len);
    have_of(answer)
}

// The table id in the ledger that the writer of edition 2 leaves.
#[unsafe(no_mangle)]
pub extern "C" fn sat_ledger_write_edition_2_table_id(
    table_id: u8,
    body: &[u8],
    out_len: usize,
) -> u8
    ensures { result ≡ table_id_of (write_answer Second table_id body.now out_len) }
{
    let answer = write_answer(Edition::Second, table_id, body, out_len);
    table_id_of(answer)
}

// The length of the ledger that the writer of edition 2 leaves.
#[unsafe(no_mangle)]
pub extern "C" fn sat_ledger_write_edition_2_length(
    table_id: u8,
    body: &[u8],
    out_len: usize,
) -> usize
    ensures { result ≡ length_of (write_answer Second table_id body.now out_len) }
{
    let answer = write_answer(Edition::Second, table_id, body, out_len);
    length_of(answer)
}

// The body of a ledger, plain in edition 1 and kept in edition 2, at the buffer's start; after a refusal the buffer is
// as it was.
#[unsafe(no_mangle)]
pub extern "C" fn sat_ledger_read(ledger: &[u8], out: &mut [u8]) -> u32
    ensures { (result ≡ number_of (read_answer ledger.now (length out.old))) × (out.new ≡ read_left ledger.now out.old) }
{
    let answer = ledger_read(ledger, out);
    number_of(answer)
}

// The first value of the reader's refusal.
#[unsafe(no_mangle)]
pub extern "C" fn sat_ledger_read_need(ledger: &[u8], out_len: usize) -> usize
    ensures { result ≡ need_of (read_answer ledger.now out_len) }
{
    let answer = read_answer(ledger, out_len);
    need_of(answer)
}

// The second value of the reader's refusal.
#[unsafe(no_mangle)]
pub extern "C" fn sat_ledger_read_have(ledger: &[u8], out_len: usize) -> usize
    ensures { result ≡ have_of (read_answer ledger.now out_len) }
{
    let answer = read_answer(ledger, out_len);
    have_of(answer)
}

// The table id of the body that the reader leaves.
#[unsafe(no_mangle)]
pub extern "C" fn sat_ledger_read_table_id(ledger: &[u8], out_len: usize) -> u8
    ensures { result ≡ table_id_of (read_answer ledger.now out_len) }
{
    let answer = read_answer(ledger, out_len);
    table_id_of(answer)
}

// The length of the body that the reader leaves.
#[unsafe(no_mangle)]
pub extern "C" fn sat_ledger_read_length(ledger: &[u8], out_len: usize) -> usize
    ensures { result ≡ length_of (read_answer ledger.now out_len) }
{
    let answer = read_answer(ledger, out_len);
    length_of(answer)
}

// The plain body of a body, at the buffer's start; after a refusal the buffer is as it was.
#[unsafe(no_mangle)]
pub extern "C" fn sat_plain_body(table_id: u8, body: &[u8], out: &mut [u8]) -> u32
    ensures { (result ≡ number_of (body_answer First table_id body.now (length out.old))) × (out.new ≡ body_left First table_id body.now out.old) }
{
    let answer = edition_body(Edition::First, table_id, body, out);
    number_of(answer)
}

// The first value of the refusal of the call above.
#[unsafe(no_mangle)]
pub extern "C" fn sat_plain_body_need(table_id: u8, body: &[u8], out_len: usize) -> usize
    ensures { result ≡ need_of (body_answer First table_id body.now out_len) }
{
    let answer = body_answer(Edition::First, table_id, body, out_len);
    need_of(answer)
}

// The second value of that refusal.
#[unsafe(no_mangle)]
pub extern "C" fn sat_plain_body_have(table_id: u8, body: &[u8], out_len: usize) -> usize
    ensures { result ≡ have_of (body_answer First table_id body.now out_len) }
{
    let answer = body_answer(Edition::First, table_id, body, out_len);
    have_of(answer)
}

// The table id of the plain body that is left.
#[unsafe(no_mangle)]
pub extern "C" fn sat_plain_body_table_id(table_id: u8, body: &[u8], out_len: usize) -> u8
    ensures { result ≡ table_id_of (body_answer First table_id body.now out_len) }
{
    let answer = body_answer(Edition::First, table_id, body, out_len);
    table_id_of(answer)
}

// The length of the plain body that is left.
#[unsafe(no_mangle)]
pub extern "C" fn sat_plain_body_length(table_id: u8, body: &[u8], out_len: usize) -> usize
    ensures { result ≡ length_of (body_answer First table_id body.now out_len) }
{
    let answer = body_answer(Edition::First, table_id, body, out_len);
    length_of(answer)
}

// The kept body of a body, at the buffer's start; after a refusal the buffer is as it was.
#[unsafe(no_mangle)]
pub extern "C" fn sat_kept_body(table_id: u8, body: &[u8], out: &mut [u8]) -> u32
    ensures { (result ≡ number_of (body_answer Second table_id body.now (length out.old))) × (out.new ≡ body_left Second table_id body.now out.old) }
{
    let answer = edition_body(Edition::Second, table_id, body, out);
    number_of(answer)
}

// The first value of the refusal of the call above.
#[unsafe(no_mangle)]
pub extern "C" fn sat_kept_body_need(table_id: u8, body: &[u8], out_len: usize) -> usize
    ensures { result ≡ need_of (body_answer Second table_id body.now out_len) }
{
    let answer = body_answer(Edition::Second, table_id, body, out_len);
    need_of(answer)
}

// The second value of that refusal.
#[unsafe(no_mangle)]
pub extern "C" fn sat_kept_body_have(table_id: u8, body: &[u8], out_len: usize) -> usize
    ensures { result ≡ have_of (body_answer Second table_id body.now out_len) }
{
    let answer = body_answer(Edition::Second, table_id, body, out_len);
    have_of(answer)
}

// The table id of the kept body that is left.
#[unsafe(no_mangle)]
pub extern "C" fn sat_kept_body_table_id(table_id: u8, body: &[u8], out_len: usize) -> u8
    ensures { result ≡ table_id_of (body_answer Second table_id body.now out_len) }
{
    let answer = body_answer(Edition::Second, table_id, body, out_len);
    table_id_of(answer)
}

// The length of the kept body that is left.
#[unsafe(no_mangle)]
pub extern "C" fn sat_kept_body_length(table_id: u8, body: &[u8], out_len: usize) -> usize
    ensures { result ≡ length_of (body_answer Second table_id body.now out_len) }
{
    let answer = body_answer(Edition::Second, table_id, body, out_len);
    length_of(answer)
}

// The different ids of a body's entries in the order of first entries, at the buffer's start; after a refusal the
// buffer is as it was.
#[unsafe(no_mangle)]
pub extern "C" fn sat_entry_ids(table_id: u8, body: &[u8], out: &mut [u32]) -> u32
    ensures { (result ≡ number_of (ids_answer table_id body.now (length out.old))) × (out.new ≡ ids_left table_id body.now out.old) }
{
    let answer = entry_ids(table_id, body, out);
    number_of(answer)
}

// The first value of the refusal of the call above.
#[unsafe(no_mangle)]
pub extern "C" fn sat_entry_ids_need(table_id: u8, body: &[u8], out_len: usize) -> usize
    ensures { result ≡ need_of (ids_answer table_id body.now out_len) }
{
    let answer = entry_ids_answer(table_id, body, out_len);
    need_of(answer)
}

// The second value of that refusal.
#[unsafe(no_mangle)]
pub extern "C" fn sat_entry_ids_have(table_id: u8, body: &[u8], out_len: usize) -> usize
    ensures { result ≡ have_of (ids_answer table_id body.now out_len) }
{
    let answer = entry_ids_answer(table_id, body, out_len);
    have_of(answer)
}

// The number of ids that the call above leaves.
#[unsafe(no_mangle)]
pub extern "C" fn sat_entry_ids_length(table_id: u8, body: &[u8], out_len: usize) -> usize
    ensures { result ≡ length_of (ids_answer table_id body.now out_len) }
{
    let answer = entry_ids_answer(table_id, body, out_len);
    length_of(answer)
}

// The first clock reading against the second: 0 the same instant, 1 earlier, 2 later, 3 opposite.
#[unsafe(no_mangle)]
pub extern "C" fn sat_clock_order(base: u64, ext: u16, other_base: u64, other_ext: u16) -> u32
    ensures { result ≡ order_number (clock_order base ext other_base other_ext) }
{
    clock_order(base, ext, other_base, other_ext).number()
}
