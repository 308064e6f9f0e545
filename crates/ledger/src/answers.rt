// What the calls answer to a buffer's length alone: the result's length is enough for that.
ghost use Rattle.std.specs.Prelude.{◌≡◌};
ghost use Rattle.format.specs.Calls.{write_answer, read_answer};
ghost use Rattle.format.specs.Convert.{convert_answer};
ghost use Rattle.format.specs.Redact.{redact_answer};
ghost use Rattle.plain_body.specs.Bodies.{body_answer};

use format::{Edition, Output, Refusal, fitted};
use ledger_converter::convert_measure;
use ledger_reader::ledger_measure;
use ledger_redactor::redact_measure;
use ledger_writer::ledger_size;
use plain_body::edition_measure;

// What the writer of an edition answers with a buffer of so many bytes.
pub fn write_answer(
    edition: Edition,
    table_id: u8,
    body: &[u8],
    room: usize,
) -> Result<Output, Refusal>
    ensures { result ≡ write_answer edition table_id body.now room }
{
    let size = ledger_size(edition, table_id, body)?;
    fitted(table_id, size, room)
}

// What the reader answers with a buffer of so many bytes.
pub fn read_answer(ledger: &[u8], room: usize) -> Result<Output, Refusal>
    ensures { result ≡ read_answer ledger.now room }
{
    let measure = ledger_measure(ledger)?;
    fitted(measure.table_id, measure.length, room)
}

// What the call for a body's plain or kept body answers with a buffer of so many bytes.
pub fn body_answer(
    edition: Edition,
    table_id: u8,
    body: &[u8],
    room: usize,
) -> Result<Output, Refusal>
    ensures { result ≡ body_answer edition table_id body.now room }
{
    let measure = edition_measure(edition, table_id, body)?;
    fitted(measure.table_id, measure.length, room)
}

// What the call for a ledger in an edition answers with a buffer of so many bytes.
pub fn convert_answer(edition: Edition, ledger: &[u8], room: usize) -> Result<Output, Refusal>
    ensures { result ≡ convert_answer edition ledger.now room }
{
    let measure = convert_measure(edition, ledger)?;
    fitted(measure.table_id, measure.length, room)
}

// What the call for a ledger without covariance answers with a buffer of so many bytes.
pub fn redact_answer(ledger: &[u8], room: usize) -> Result<Output, Refusal>
    ensures { result ≡ redact_answer ledger.now room }
{
    let measure = redact_measure(ledger)?;
    fitted(measure.table_id, measure.length, room)
}
