// An answer's numbers, one for each call from C; 0 where there is none.
ghost use Rattle.std.specs.Prelude.{◌≡◌};
ghost use Rattle.format.specs.Calls.{number_of, need_of, have_of, table_id_of, length_of};

use format::{Output, Refusal};

// The refusal's number, or 0.
#[tactic(auto, unfolding(format::specs::Calls::number_of))]
pub fn number_of(answer: Result<Output, Refusal>) -> u32
    ensures { result ≡ number_of answer }
{
    match answer {
        Ok(_) => 0,
        Err(refusal) => refusal.fault.number() as u32,
    }
}

// What the refusal asks for, or 0.
#[tactic(auto, unfolding(format::specs::Calls::need_of))]
pub fn need_of(answer: Result<Output, Refusal>) -> usize
    ensures { result ≡ need_of answer }
{
    match answer {
        Ok(_) => 0,
        Err(refusal) => refusal.need,
    }
}

// What there was in place of that, or 0.
#[tactic(auto, unfolding(format::specs::Calls::have_of))]
pub fn have_of(answer: Result<Output, Refusal>) -> usize
    ensures { result ≡ have_of answer }
{
    match answer {
        Ok(_) => 0,
        Err(refusal) => refusal.have,
    }
}

// The table id, or 0 after a refusal.
#[tactic(auto, unfolding(format::specs::Calls::table_id_of))]
pub fn table_id_of(answer: Result<Output, Refusal>) -> u8
    ensures { result ≡ table_id_of answer }
{
    match answer {
        Ok(output) => output.table_id,
        Err(_) => 0,
    }
}

// The result's length, or 0 after a refusal.
#[tactic(auto, unfolding(format::specs::Calls::length_of))]
pub fn length_of(answer: Result<Output, Refusal>) -> usize
    ensures { result ≡ length_of answer }
{
    match answer {
        Ok(output) => output.length,
        Err(_) => 0usize,
    }
}
