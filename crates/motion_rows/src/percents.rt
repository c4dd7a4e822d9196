//! Worked percents.

use code_table::Ovr;
use overrides::Overrides;
use units::Rate;

#[test]
fn adds_up_to_the_greatest_percentage(rt: HostRuntime) {
    let mut overrides = Overrides::normal();
    for _ in 0..12u32 {
        overrides.take(Ovr::FEED_UP_10);
    }
    assert_eq!(rt; overrides.feed, 200);
    overrides.take(Ovr::FEED_100 | Ovr::FEED_UP_10 | Ovr::FEED_DOWN_10);
    assert_eq!(rt; overrides, Overrides::normal());
    overrides.take(Ovr::RAPID_50 | Ovr::RAPID_25 | Ovr::SPINDLE_DOWN_1);
    assert_eq!(rt; overrides.rapid, 25);
    assert_eq!(rt; overrides.spindle, 99);
}

#[test]
fn feeds_follow_their_percentage_and_jogs_do_not(rt: HostRuntime) {
    let mut overrides = Overrides::normal();
    overrides.take(Ovr::FEED_DOWN_10);
    assert_eq!(rt; overrides.nominal(&Rate::Feed(300_000_000), 8333), 4500);
    assert_eq!(rt; overrides.nominal(&Rate::Jog(300_000_000), 8333), 5000);
    assert_eq!(rt; overrides.nominal(&Rate::Jog(900_000_000), 8333), 8333);
    assert_eq!(rt; overrides.nominal(&Rate::Feed(0), 8333), 16);
    assert_eq!(rt; overrides.nominal(&Rate::Rapid, 8333), 8333);
}
