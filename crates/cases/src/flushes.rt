// The flush key: C13, the seconds of wish 3, and refusal 12 from both sides of the first and the last good hour.
use std::io;

fn key(rt: &impl Print, when: &str, unit: u16, valve: u8, seconds: i64) -> io::Result<()> {
    print!(rt; "{when}: flush unit {unit} valve {valve}: ")?;
    match flush::flush_key(unit, valve, seconds) {
        Ok(key) => println!(rt; "key {key}"),
        Err(why) => println!(rt; "{why}"),
    }
}

pub fn run(rt: &impl Print) -> io::Result<()> {
    for (when, unit, valve, seconds) in [
        ("second 7199", 1, 2, 7199),
        ("second 7200", 1, 2, 7200),
        ("second 0", 0, 0, 0),
        ("second -1", 0, 0, -1),
        ("second -1", 1, 2, -1),
        ("second -3600", 1, 2, -3600),
        ("second -3601", 1, 2, -3601),
        (
            "the last second of hour 2^39 - 1",
            65535,
            255,
            1979120929996799,
        ),
        ("the second after it", 65535, 255, 1979120929996800),
        (
            "the first second of hour -2^39",
            65535,
            255,
            -1979120929996800,
        ),
        ("the second before it", 65535, 255, -1979120929996801),
        ("the last second of all", 0, 0, i64::MAX),
        ("the first second of all", 0, 0, i64::MIN),
    ] {
        key(rt, when, unit, valve, seconds)?;
    }
    Ok(())
}
