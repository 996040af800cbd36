// A request that is turned down, and a second one that is agreed to.
use crate::state::{Event, State};
use refusal::Refusal;
use std::test::Fail;

#[test]
fn ask_no_ask_yes(rt: HostRuntime) -> Result<(), Fail> {
    let ask = Event::Ask {
        by: 3,
        payment: -700,
        session: 9,
    };
    let asked = State::Plain.after(ask)?;
    assert_eq!(rt; asked.after(ask), Err(Refusal::NotPlain));
    assert_eq!(rt; asked.after(Event::No { by: 3 }), Err(Refusal::NotParty));
    assert_eq!(rt; asked.after(Event::No { by: 5 })?, State::Plain);
    let agreed = asked.after(Event::Yes { by: 5 })?;
    let wanted = State::Agreed {
        payment: -700,
        session: 9,
    };
    assert_eq!(rt; agreed, wanted);
    assert_eq!(rt;
        agreed.after(Event::Yes { by: 5 }),
        Err(Refusal::NothingAsked)
    );
    Ok(())
}
