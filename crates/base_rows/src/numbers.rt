//! Numbers at their bounds, and each call once; other numbers are in tests/journals/amounts.rows and numbers.rows.
use hl_num::{Dec, Number, Shape, div_round, print_number, read_number};
use std::cmp::Ordering;
use std::process::Abort;
use std::test::Fail;

const TOP: i128 = 170141183460469231731687303715884105727;

fn dec(rt: &impl Abort, mantissa: i128, places: u8) -> Dec {
    Dec::new(mantissa, places).expect(rt, "within bounds")
}

#[test]
fn numbers_are_reckoned(rt: HostRuntime) {
    let top = dec(&rt, TOP, 0);
    let cent = dec(&rt, 1, 2);
    assert_eq!(rt;
        dec(&rt, 3335, 3).add(dec(&rt, -333, 2)),
        Ok(dec(&rt, 5, 3))
    );
    assert!(rt; top.add(dec(&rt, 1, 0)).is_err());
    assert_eq!(rt; dec(&rt, 25, 1).mul(dec(&rt, 4, 1)), Ok(dec(&rt, 1, 0)));
    assert!(rt; top.mul(dec(&rt, 2, 0)).is_err());
    assert!(rt; dec(&rt, 1, 19).mul(dec(&rt, 1, 18)).is_err());
    assert_eq!(rt; dec(&rt, 25, 3).round_half_even(2), dec(&rt, 2, 2));
    assert_eq!(rt; div_round(-1, 8, 2), Ok(dec(&rt, -12, 2)));
    assert!(rt; div_round(TOP, 1, 1).is_err());
    assert_eq!(rt; top.compare(cent), Ordering::Greater);
}

#[test]
fn numbers_are_read_and_printed(rt: HostRuntime) -> Result<(), Fail> {
    let number = Number {
        value: dec(&rt, 10005, 1),
        mark: Some(b','),
        group: Some(b'.'),
        first: 3,
        rest: 3,
    };
    assert_eq!(rt; read_number(b"1.000,5", None), Ok(number));
    match read_number(b"170141183460469231731687303715884105728", None) {
        Ok(_) => assert!(rt; false, "a number was read"),
        Err(bad) => assert_eq!(rt; bad.at, 39),
    }
    let shape = Shape {
        mark: b'.',
        group: Some(b','),
        first: 3,
        rest: 2,
    };
    let printed = print_number(rt.alloc(), dec(&rt, 12345678951, 2), 1, &shape)?;
    assert_eq!(rt; printed.as_str(), "12,34,56,789.5");
    Ok(())
}
