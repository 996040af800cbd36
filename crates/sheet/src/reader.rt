// Reads a cash sheet from any bytes.
ghost use Rattle.std.specs.Prelude.{◌≡◌, []};
ghost use Rattle.refusal.specs.declared.Refusal.TheVariants.{BadSheet};
ghost use Rattle.refusal.specs.Refusals.{bare, on_line};
ghost use Rattle.sheet.specs.Laws.{Accepts, FrontDecides};
ghost use Rattle.sheet.specs.Reading.{finished, reads};

use crate::reading::{Next, Reading, Sheet};
use refusal::{Fault, Refusal};

fn bad_line(line: u32) -> Fault
    ensures { result ≡ on_line line (bare BadSheet) }
{
    Fault::from(Refusal::BadSheet).at_line(line)
}

// The end of the bytes, where line `line` would begin.
fn finish(reading: Reading, line: u32) -> Result<Sheet, Fault>
    ensures { result ≡ finished reading.next reading.sheet [] line }
{
    match reading.next {
        Next::Nothing => Ok(reading.sheet),
        _ => Err(bad_line(line)),
    }
}

// The sheet that the bytes are the text of, or the first bad line.
pub fn read(bytes: &[u8]) -> Result<Sheet, Fault>
    ensures answer { result ≡ reads bytes.now }
    ensures accepts { Accepts bytes.now result }
    ensures front { FrontDecides bytes.now }
{
    let mut reading = Reading::start();
    let mut line = 1;
    for part in bytes.split_inclusive(|b| *b == b'\n') {
        let Some(text) = part.strip_suffix(b"\n") else {
            return Err(bad_line(line));
        };
        let Some(next) = reading.take(text) else {
            return Err(bad_line(line));
        };
        reading = next;
        // Counted here, since the end of the bytes needs the number too.
        line += 1;
    }
    finish(reading, line)
}
