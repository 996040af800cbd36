// A swap's state, and what an ask, a yes or a no makes of it.
ghost use Rattle.std.specs.Prelude.{◌≡◌, Some};
ghost use Rattle.swaps.specs.States.{other, after_event};
ghost use Rattle.swaps.specs.Texts.{state_text};

use refusal::{Refusal, demand};
use std::fmt;

// Plain; asked to end early, by an account, for a payment to the long side, in a session; or agreed to.
#[derive(Clone, Copy, Debug, PartialEq, Eq)]
pub enum State {
    Plain,
    Asked { by: u32, payment: i64, session: u32 },
    Agreed { payment: i64, session: u32 },
}

// The state's name, and its figures in the order above.
impl fmt::Display for State {
    ghost output = { λ state. Some (state_text state) };

    fn fmt<W: fmt::Write>(&self, f: &mut fmt::Formatter<W>) -> fmt::Result {
        match *self {
            State::Plain => f.write_str("plain"),
            State::Asked {
                by,
                payment,
                session,
            } => write!(f, "asked {by} {payment} {session}"),
            State::Agreed { payment, session } => write!(f, "agreed {payment} {session}"),
        }
    }
}

// What a party does about an early end. A state is matched with each of them, so a yes and a no are variants of their own.
#[derive(Clone, Copy, Debug, PartialEq, Eq)]
pub enum Event {
    Ask { by: u32, payment: i64, session: u32 },
    Yes { by: u32 },
    No { by: u32 },
}

// Only the other party answers a request.
fn check_other(asker: u32, by: u32) -> Result<(), Refusal>
    ensures { result ≡ other asker by }
{
    demand(by != asker, Refusal::NotParty)
}

impl State {
    // The state that an event leaves: only the other party answers a request, and only a plain swap is asked for.
    pub fn after(self, event: Event) -> Result<State, Refusal>
        ensures { result ≡ after_event self event }
    {
        match (self, event) {
            (
                State::Plain,
                Event::Ask {
                    by,
                    payment,
                    session,
                },
            ) => Ok(State::Asked {
                by,
                payment,
                session,
            }),
            (
                State::Asked {
                    by: asker,
                    payment,
                    session,
                },
                Event::Yes { by },
            ) => {
                check_other(asker, by)?;
                Ok(State::Agreed { payment, session })
            }
            (State::Asked { by: asker, .. }, Event::No { by }) => {
                check_other(asker, by)?;
                Ok(State::Plain)
            }
            (_, Event::Ask { .. }) => Err(Refusal::NotPlain),
            _ => Err(Refusal::NothingAsked),
        }
    }
}
