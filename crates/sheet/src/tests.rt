// The worked example: session 1, a credit of 300 to member 0 and a charge of 300 to member 1.
use crate::order::{Order, Side, order_of};
use crate::reader::read;
use crate::report::report;
use crate::writer::write;
use std::test::Fail;

const EXAMPLE: &[u8] =
    b"session=1\nmember=0\norder=credit\ncentavos=300\nmember=1\norder=charge\ncentavos=300\nend=2\n";

#[test]
fn the_example_is_written(rt: HostRuntime) -> Result<(), Fail> {
    let mut buffer = [7u8; 100];
    let n = write(1, &[300, -300], &mut buffer)?;
    assert!(rt; n <= 100);
    assert!(rt; &buffer[0..n] == EXAMPLE);
    assert_eq!(rt; buffer[99], 7);
    Ok(())
}

#[test]
fn the_example_is_read_and_reported(rt: HostRuntime) -> Result<(), Fail> {
    let sheet = read(EXAMPLE)?;
    assert_eq!(rt; sheet.session, 1);
    let credit = Order {
        side: Side::Credit,
        centavos: 300,
    };
    let charge = Order {
        side: Side::Charge,
        centavos: 300,
    };
    assert_eq!(rt; order_of(sheet.nets[0]), Some(credit));
    assert_eq!(rt; order_of(sheet.nets[1]), Some(charge));
    assert_eq!(rt; order_of(sheet.nets[2]), None);
    let told = report(rt.alloc(), EXAMPLE)?;
    assert_eq!(rt; told.as_str(), "orders=2\ncharges=300\n");
    Ok(())
}
