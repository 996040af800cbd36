// The report on a sheet: what treasury is told of it.
ghost use Rattle.std.specs.Prelude.{◌≡◌, ℕ, ◌<◌, List, ◌++◌, length, IfOk, string_bytes};
ghost use Rattle.sheet.specs.Reading.{reads};
ghost use Rattle.sheet.specs.Report.{reported};

use crate::order::{Side, count_orders, sum_of};
use crate::reader::read;
use crate::reading::Sheet;
use refusal::Fault;
use std::alloc::{AllocError, Global};

// So many bytes of its front decide what is reported of any input.
pub const FRONT: usize = 1_655;

// The lines that tell of a sheet, or of the fault that was met.
fn told(heap: Global, answer: Result<Sheet, Fault>) -> Result<String, AllocError>
    ensures { IfOk result (λ s. string_bytes s ≡ reported answer) }
{
    match answer {
        Ok(sheet) => {
            let orders = count_orders(&sheet.nets);
            let charges = sum_of(Side::Charge, &sheet.nets);
            format!(in heap; "orders={orders}\ncharges={charges}\n")
        }
        Err(fault) => {
            let number = fault.refusal().number();
            let line = fault.line();
            format!(in heap; "fault={number}\nline={line}\n")
        }
    }
}

// The lines that `cashcheck` prints of a sheet's bytes.
pub fn report(heap: Global, bytes: &[u8]) -> Result<String, AllocError>
    ensures answer { IfOk result (λ s. string_bytes s ≡ reported (reads bytes.now)) }
    ensures front { IfOk result (λ s. (rest : List ℕ) → 1654 < length bytes.now → string_bytes s ≡ reported (reads (bytes.now ++ rest))) }
{
    told(heap, read(bytes))
}
