// The calls for C that copy a ledger without covariance.
ghost use Rattle.std.specs.Prelude.{◌≡◌, length};
ghost use Rattle.format.specs.Calls.{number_of, need_of, have_of, table_id_of, length_of};
ghost use Rattle.format.specs.Redact.{redact_answer, redact_left};

use crate::answers::redact_answer;
use crate::numbers::{have_of, length_of, need_of, number_of, table_id_of};
use ledger_redactor::ledger_redact;

// A ledger without covariance, at the buffer's start; after a refusal the buffer is as it was.
#[unsafe(no_mangle)]
pub extern "C" fn sat_ledger_without_covariance(ledger: &[u8], out: &mut [u8]) -> u32
    ensures { (result ≡ number_of (redact_answer ledger.now (length out.old)))
        × (out.new ≡ redact_left ledger.now out.old) }
{
    let answer = ledger_redact(ledger, out);
    number_of(answer)
}

// The first value of the refusal of the call above.
#[unsafe(no_mangle)]
pub extern "C" fn sat_ledger_without_covariance_need(ledger: &[u8], out_len: usize) -> usize
    ensures { result ≡ need_of (redact_answer ledger.now out_len) }
{
    let answer = redact_answer(ledger, out_len);
    need_of(answer)
}

// The second value of that refusal.
#[unsafe(no_mangle)]
pub extern "C" fn sat_ledger_without_covariance_have(ledger: &[u8], out_len: usize) -> usize
    ensures { result ≡ have_of (redact_answer ledger.now out_len) }
{
    let answer = redact_answer(ledger, out_len);
    have_of(answer)
}

// The table id of the copy that is left.
#[unsafe(no_mangle)]
pub extern "C" fn sat_ledger_without_covariance_table_id(ledger: &[u8], out_len: usize) -> u8
    ensures { result ≡ table_id_of (redact_answer ledger.now out_len) }
{
    let answer = redact_answer(ledger, out_len);
    table_id_of(answer)
}

// Its length.
#[unsafe(no_mangle)]
pub extern "C" fn sat_ledger_without_covariance_length(ledger: &[u8], out_len: usize) -> usize
    ensures { result ≡ length_of (redact_answer ledger.now out_len) }
{
    let answer = redact_answer(ledger, out_len);
    length_of(answer)
}
