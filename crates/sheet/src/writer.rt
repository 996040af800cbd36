// Writes a cash sheet into a buffer.
ghost use Rattle.std.specs.Prelude.{◌≡◌, length, take, IfOk, Ok, nat_le, unsigned_abs};
ghost use Rattle.arrayvec.specs.ArrayString.{array_string_len};
ghost use Rattle.refusal.specs.Checks.{raised, check};
ghost use Rattle.refusal.specs.declared.Refusal.TheVariants.{ListLength};
ghost use Rattle.sheet.specs.Laws.{sheet_of};
ghost use Rattle.sheet.specs.Reading.{reads};
ghost use Rattle.sheet.specs.Text.{text};
ghost use Rattle.sheet.specs.Writing.{payable, sendable, writing, filled};

use crate::compose::{Page, compose};
use crate::order::balanced;
use refusal::{Fault, Refusal, demand, inside};

// Whether a sheet can hold each of the nets.
fn payable(nets: &[i64]) -> bool
    ensures { result ≡ payable nets.now }
{
    nets.iter().all(|net| inside(-200_000_000_000_000_000, 200_000_000_000_000_000, *net))
}

// A sheet can hold the session and the nets, and its charges and credits have the same sum.
fn check_figures(session: i64, nets: &[i64]) -> Result<(), Refusal>
    ensures { result ≡ sendable session nets.now }
{
    demand(inside(1, 32, nets.len() as i64), Refusal::BadSheet)?;
    demand(inside(1, 100_000, session), Refusal::BadSheet)?;
    demand(payable(nets), Refusal::BadSheet)?;
    demand(balanced(nets), Refusal::BadSheet)
}

// The buffer has room for the page.
fn check_room(page: &Page, buffer: &[u8]) -> Result<(), Refusal>
    ensures { result ≡ check (nat_le (array_string_len page.now) (length buffer.now)) ListLength }
{
    demand(page.len() <= buffer.len(), Refusal::ListLength)
}

// Writes the sheet of a session and one net for each member from 0 on. It answers how many bytes it wrote, into a buffer that is lent since the
// writer asks for no memory.
pub fn write(session: i64, nets: &[i64], buffer: &mut [u8]) -> Result<usize, Fault>
    ensures answer { result ≡ raised (writing session nets.now (length buffer.old)) }
    ensures after { buffer.new ≡ filled (writing session nets.now (length buffer.old)) (text (unsigned_abs session) nets.now) buffer.old }
    ensures reads_back { IfOk result (λ n. reads (take n buffer.new) ≡ Ok (sheet_of session nets.now)) }
{
    check_figures(session, nets)?;
    let page = compose(session as u64, nets);
    check_room(&page, buffer)?;
    let len = page.len();
    buffer[..len].copy_from_slice(page.as_bytes());
    Ok(len)
}
