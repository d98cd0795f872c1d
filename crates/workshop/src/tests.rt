// Lines that are readings, and each fault of a line.
use crate::reading::{Reading, parse};
use crate::wrong::{Field, Wrong};
use std::process::Abort;
use std::test::Fail;

fn reads(rt: &impl Abort, line: &[u8], truck: u16, tyre: u16, kpa: u16) {
    assert_eq!(rt; parse(line), Ok(Reading { truck, tyre, kpa }));
}

fn refuses(rt: &impl Abort, line: &[u8], wrong: Wrong) {
    assert_eq!(rt; parse(line), Err(wrong));
}

#[test]
fn reads_good_lines(rt: HostRuntime) {
    reads(&rt, b"truck=17 tyre=3 kpa=780", 17, 3, 780);
    reads(&rt, b"truck=0 tyre=65535 kpa=0", 0, 65535, 0);
}

#[test]
fn names_each_fault(rt: HostRuntime) {
    refuses(&rt, b"", Wrong::Missing(Field::Truck));
    refuses(
        &rt,
        b"truck=17  tyre=3 kpa=780",
        Wrong::Missing(Field::Tyre),
    );
    refuses(&rt, b"truck=17 tyre=3", Wrong::Missing(Field::Kpa));
    refuses(
        &rt,
        b"truck=-1 tyre=3 kpa=780",
        Wrong::NotANumber(Field::Truck),
    );
    refuses(
        &rt,
        b"truck=17 tyre=03 kpa=780",
        Wrong::NotANumber(Field::Tyre),
    );
    refuses(
        &rt,
        b"truck=17 tyre=3 kpa=65536",
        Wrong::TooLarge(Field::Kpa),
    );
    refuses(&rt, b"truck=17 tyre=3 kpa=780\r", Wrong::Trailing);
}

#[test]
fn says_what_is_wrong(rt: HostRuntime) -> Result<(), Fail> {
    let missing = Wrong::Missing(Field::Tyre).to_string(rt.alloc())?;
    assert_eq!(rt; missing.as_str(), "expected ' tyre=' after the truck");
    let too_large = Wrong::TooLarge(Field::Kpa).to_string(rt.alloc())?;
    assert_eq!(rt; too_large.as_str(), "kpa: the number is above 65535");
    Ok(())
}
