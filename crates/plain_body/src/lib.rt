// What an edition keeps of a body under its table id: the plain body in the first edition, the kept body in the second.
// The way goes through the body's ledger, in a buffer that has room for every ledger.
#![tactic(auto)]

ghost use Rattle.std.specs.Prelude.{◌≡◌, length};
ghost use Rattle.plain_body.specs.Bodies.{body_answer, body_left, body_measure};

use format::{Edition, Output, Refusal};
use ledger_reader::{ledger_measure, ledger_read};
use ledger_writer::ledger_write;

// The most bytes that a ledger has: 6 + 2 × 4096.
const LEDGER_MAX: usize = 8198;

// The table id and the length of what an edition keeps of a body: no buffer is needed for them.
pub fn edition_measure(edition: Edition, table_id: u8, body: &[u8]) -> Result<Output, Refusal>
    ensures { result ≡ body_measure edition table_id body.now }
{
    let mut ledger = [0u8; LEDGER_MAX];
    let written = ledger_write(edition, table_id, body, &mut ledger)?;
    ledger_measure(&ledger[..written.length])
}

// What an edition keeps of a body, stored from the buffer's start on where there is room for it; after a refusal the
// buffer is as it was.
pub fn edition_body(
    edition: Edition,
    table_id: u8,
    body: &[u8],
    out: &mut [u8],
) -> Result<Output, Refusal>
    ensures { (result ≡ body_answer edition table_id body.now (length out.old)) × (out.new ≡ body_left edition table_id body.now out.old) }
{
    let mut ledger = [0u8; LEDGER_MAX];
    let filed = ledger_write(edition, table_id, body, &mut ledger)?;
    ledger_read(&ledger[..filed.length], out)
}
