// The rows of a batch as comma-separated values.
ghost use Rattle.std.specs.Prelude.{◌≡◌, ℕ, List, IfOk, IfSome, OnOk};
ghost use Rattle.std.specs.String.{string_bytes};
ghost use Rattle.describe.specs.CsvLines.{AddsLine, IsCsvOf, TellRow, column_names};

use crate::shares::{HalfWidth, Share};
use batch::BatchRow;
use csv::{Error, Writer};
use std::alloc::Global;
use std::fmt::Display;
use std::io::Write;

// The text of a value.
fn text_of<D: Display>(heap: Global, value: &D) -> Result<String, Error>
    ensures { IfOk result (λ s. IfSome (D.output value.now) (λ bytes. string_bytes s ≡ bytes)) }
{
    match value.to_string(heap) {
        Ok(text) => Ok(text),
        Err(_) => Err(Error::out_of_memory()),
    }
}

// Writes the names of the columns.
fn write_names<W: Write + Drop>(writer: &mut Writer<W>) -> Result<(), Error>
    ensures { OnOk result (AddsLine W.contents writer.old writer.new column_names) }
{
    writer.write_fields(&[
        b"identifier".as_slice(),
        b"reached".as_slice(),
        b"failed".as_slice(),
        b"stuck".as_slice(),
        b"unfinished".as_slice(),
        b"share_percent".as_slice(),
        b"half_width_percent".as_slice(),
    ])
}

// Writes a row of a batch with so many runs for each scheduler.
fn write_row<W: Write + Drop>(
    heap: Global,
    writer: &mut Writer<W>,
    row: &BatchRow,
    runs: u32,
) -> Result<(), Error>
    ensures { OnOk result ((fields : List (List ℕ)) × TellRow runs row.now fields
        × AddsLine W.contents writer.old writer.new fields) }
{
    let identifier = text_of(heap, &row.identifier)?;
    let reached = text_of(heap, &row.reached)?;
    let failed = text_of(heap, &row.failed)?;
    let stuck = text_of(heap, &row.stuck)?;
    let unfinished = text_of(heap, &row.unfinished)?;
    let share = text_of(heap, &Share::of(row.reached, runs).in_percent())?;
    let half_width = text_of(heap, &HalfWidth::of(runs).in_percent())?;
    writer.write_fields(&[
        identifier.as_bytes(),
        reached.as_bytes(),
        failed.as_bytes(),
        stuck.as_bytes(),
        unfinished.as_bytes(),
        share.as_bytes(),
        half_width.as_bytes(),
    ])
}

// The text of a batch with so many runs for each scheduler: the names of the columns, and a line
// for each row. Its errors are that memory is out.
pub fn csv_text(heap: Global, rows: &[BatchRow], runs: u32) -> Result<Vec<u8>, Error>
    ensures { IfOk result (λ text. IsCsvOf runs rows.now text.items) }
{
    let mut writer = Writer::from_writer(Vec::new(heap));
    write_names(&mut writer)?;
    for row in rows {
        write_row(heap, &mut writer, row, runs)?;
    }
    match writer.into_inner() {
        Ok(text) => Ok(text),
        Err(e) => Err(e.into_error()),
    }
}
