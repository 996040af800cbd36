// The refusals of the engine, a fault with its place, and the form of an ordered check.
#![tactic(auto)]

ghost use Rattle.std.specs.Prelude.{◌≡◌, ◌<◌, ◌≤◌, Some, IfOk};
ghost use Rattle.refusal.specs.Refusals.{number, bare, on_line, on_observation, fault_text};
ghost use Rattle.refusal.specs.Checks.{within, check, count_of, placed, seen};

use std::fmt;

#[cfg(test)]
mod tests;

// Why a call is refused. The first group comes from the input, the second from the state.
#[derive(Clone, Copy, Debug, PartialEq, Eq)]
pub enum Refusal {
    // a member, an account or an opening count out of range
    OutOfRange = 1,
    // long equals short
    SameAccount = 2,
    UnknownKind = 3,
    Nominal = 4,
    // an NPV, a payment, a top-up, a ledger's opening fund or line
    Amount = 5,
    Session = 6,
    // days, a rate, the TRM or an observation
    MarketFigure = 7,
    // a leg that is none, or not of the swap's kind
    Leg = 8,
    // a compounding factor above its limit
    Factor = 9,
    // a list that is too short, too long or of the wrong length
    ListLength = 10,
    // nodes, scenarios or a return
    Scenarios = 11,
    // a sensitivity or a scenario's term beyond its limit
    Sensitivity = 12,
    BadSheet = 13,
    SettlementUnderWay = 20,
    BookFull = 21,
    NoSuchSwap = 22,
    // not a party, or the asker answering its own request
    NotParty = 23,
    // a request in the session of registration
    JustRegistered = 24,
    NotPlain = 25,
    NothingAsked = 26,
    NoSuchOrder = 27,
    ChargesOutstanding = 28,
    LedgerRejected = 29,
    // the last swap number was given, or the last session has closed
    NumbersUsedUp = 30,
    // an NPV other than 0 in the agreed session
    NpvNotZero = 31,
}

impl Refusal {
    // The number by which clients know the refusal: `u8::from` would not say which number it is.
    pub fn number(self) -> u8
        ensures { result ≡ number self }
    {
        self as u8
    }
}

// A refusal and its place. Line and observation count from 1, and are 0 where none applies: so the rules have them, and so they are printed.
#[derive(Clone, Copy, Debug, PartialEq, Eq)]
pub struct Fault {
    refusal: Refusal,
    line: u32,
    observation: u32,
}

impl From<Refusal> for Fault {
    ghost from_gives = { λ x r. r ≡ bare x };

    fn from(refusal: Refusal) -> Fault {
        Fault {
            refusal,
            line: 0,
            observation: 0,
        }
    }
}

// The fault's number and line, as a report has them.
impl fmt::Display for Fault {
    ghost output = { λ f. Some (fault_text f) };

    fn fmt<W: fmt::Write>(&self, f: &mut fmt::Formatter<W>) -> fmt::Result {
        let number = self.refusal.number();
        let line = self.line;
        write!(f, "fault={number} line={line}")
    }
}

impl Fault {
    // The same fault at a line: an item of a list, or a line of a sheet.
    pub fn at_line(self, line: u32) -> Fault
        ensures { result ≡ on_line line self }
    {
        Fault { line, ..self }
    }

    // The same fault at an observation of its line.
    pub fn at_observation(self, observation: u32) -> Fault
        ensures { result ≡ on_observation observation self }
    {
        Fault {
            observation,
            ..self
        }
    }

    pub fn refusal(&self) -> Refusal
        ensures { result ≡ self.now.refusal }
    {
        self.refusal
    }

    pub fn line(&self) -> u32
        ensures { result ≡ self.now.line }
    {
        self.line
    }

    pub fn observation(&self) -> u32
        ensures { result ≡ self.now.observation }
    {
        self.observation
    }
}

// Whether a figure lies within limits, both of them inclusive.
pub fn inside(low: i64, high: i64, figure: i64) -> bool
    ensures { result ≡ within low high figure }
{
    (low..=high).contains(&figure)
}

// One check of several: it passes, or it gives its refusal, of whatever kind.
pub fn demand<E: Drop>(ok: bool, refusal: E) -> Result<(), E>
    ensures { result ≡ check ok refusal }
{
    if ok { Ok(()) } else { Err(refusal) }
}

// A figure from `low` up to and without `end`, as a number.
pub fn counted(low: u32, end: u32, figure: i64, refusal: Refusal) -> Result<u32, Refusal>
    ensures answer { result ≡ count_of low end figure refusal }
    ensures bounds { IfOk result (λ n. (low ≤ n) × (n < end)) }
{
    if inside(i64::from(low), i64::from(end) - 1, figure) {
        Ok(figure as u32)
    } else {
        Err(refusal)
    }
}

// An answer from below, with a refusal at the line that met it.
pub fn on_line<T>(res: Result<T, Refusal>, line: u32) -> Result<T, Fault>
    ensures { result ≡ placed line res }
{
    res.map_err(|refusal| Fault::from(refusal).at_line(line))
}

// An answer from below, with a refusal at the observation that met it. One function of this and the last would take a closure at each call.
pub fn on_observation<T>(res: Result<T, Refusal>, observation: u32) -> Result<T, Fault>
    ensures { result ≡ seen observation res }
{
    res.map_err(|refusal| Fault::from(refusal).at_observation(observation))
}
