//! The percentages by which the operator changes feeds, rapids and the spindle, with Grbl's realtime bytes.
#![tactic(auto)]

ghost use Rattle.std.specs.Prelude.{◌≡◌, ◌≤◌};
ghost use Rattle.overrides.specs.Percents.{percent_after, rapid_after, raised};

pub mod laws;

use bitflags::Flags;
use code_table::Ovr;
use units::Rate;

/// The percentages of feeds, of rapids and of the spindle's speed.
#[derive(Clone, Copy, Debug, PartialEq, Eq)]
pub struct Overrides {
    /// From 10 to 200.
    pub feed: u8,
    /// From 25 to 100.
    pub rapid: u8,
    /// From 10 to 200.
    pub spindle: u8,
}

/// Which changes of a percentage a word of flags asks for.
#[derive(Clone, Copy)]
struct Changes {
    whole: bool,
    up_ten: bool,
    down_ten: bool,
    up_one: bool,
    down_one: bool,
}

impl Changes {
    /// The changes of feeds.
    fn of_feed(flags: Ovr) -> Changes
        ensures whole { result.whole ≡ raised flags 0x90 }
        ensures up_ten { result.up_ten ≡ raised flags 0x91 }
        ensures down_ten { result.down_ten ≡ raised flags 0x92 }
        ensures up_one { result.up_one ≡ raised flags 0x93 }
        ensures down_one { result.down_one ≡ raised flags 0x94 }
    {
        Changes {
            whole: flags.contains(Ovr::FEED_100),
            up_ten: flags.contains(Ovr::FEED_UP_10),
            down_ten: flags.contains(Ovr::FEED_DOWN_10),
            up_one: flags.contains(Ovr::FEED_UP_1),
            down_one: flags.contains(Ovr::FEED_DOWN_1),
        }
    }

    /// The changes of the spindle's speed.
    fn of_spindle(flags: Ovr) -> Changes
        ensures whole { result.whole ≡ raised flags 0x99 }
        ensures up_ten { result.up_ten ≡ raised flags 0x9a }
        ensures down_ten { result.down_ten ≡ raised flags 0x9b }
        ensures up_one { result.up_one ≡ raised flags 0x9c }
        ensures down_one { result.down_one ≡ raised flags 0x9d }
    {
        Changes {
            whole: flags.contains(Ovr::SPINDLE_100),
            up_ten: flags.contains(Ovr::SPINDLE_UP_10),
            down_ten: flags.contains(Ovr::SPINDLE_DOWN_10),
            up_one: flags.contains(Ovr::SPINDLE_UP_1),
            down_one: flags.contains(Ovr::SPINDLE_DOWN_1),
        }
    }

    /// A percentage after the changes.
    fn made_to(&self, present: u8) -> u8
        ensures percent { result ≡ percent_after present self.now.whole self.now.up_ten self.now.down_ten self.now.up_one self.now.down_one }
    {
        let mut percent: u16 = if self.whole { 100 } else { present as u16 };
        if self.up_ten {
            percent += 10;
        }
        if self.down_ten {
            percent = percent.saturating_sub(10);
        }
        if self.up_one {
            percent += 1;
        }
        if self.down_one {
            percent = percent.saturating_sub(1);
        }
        percent.min(200).max(10) as u8
    }
}

/// The percentage of rapids after the changes that a word of flags asks for.
fn rapid_of(flags: Ovr, present: u8) -> u8
    ensures { result ≡ rapid_after present (raised flags 0x95) (raised flags 0x96) (raised flags 0x97) }
{
    if flags.contains(Ovr::RAPID_25) {
        25
    } else if flags.contains(Ovr::RAPID_50) {
        50
    } else if flags.contains(Ovr::RAPID_100) {
        100
    } else {
        present
    }
}

impl Overrides {
    ghost use Rattle.std.specs.Prelude.{◌≡◌, ◌≤◌};
    ghost use Rattle.units.specs.Limits.{IsRate};
    ghost use Rattle.overrides.specs.Percents.{IsOverrides, normal_overrides, taken, nominal_of};

    /// Everything as programmed.
    pub fn normal() -> Overrides
        ensures whole { result ≡ normal_overrides }
        ensures range { IsOverrides result }
    {
        Overrides {
            feed: 100,
            rapid: 100,
            spindle: 100,
        }
    }

    /// Makes the changes that a word of flags asks for.
    ///
    /// Of feeds: 100 if its flag is set, then ten more, ten less, one more, one less for those of the four flags that
    /// are set, and then at most 200 and at least 10. The spindle's speed likewise. Of rapids: 100, then 50, then 25
    /// for those of the three flags that are set.
    #[tactic(auto, unfolding(crate::specs::Percents::taken))]
    pub fn take(&mut self, bits: Ovr)
        ensures taken { self.new ≡ taken self.old bits }
        ensures range { IsOverrides self.old → IsOverrides self.new }
    {
        self.feed = Changes::of_feed(bits).made_to(self.feed);
        self.spindle = Changes::of_spindle(bits).made_to(self.spindle);
        self.rapid = rapid_of(bits, self.rapid);
    }

    /// How fast a move is to go, in µm/s, if its axes allow the speed `rapid` along it.
    ///
    /// A feed, in nm per minute, goes at `feed * percent div 6000000`, a jog always at 100 percent of its feed; both at
    /// least 16, which is 1 mm per minute, and at most `rapid`. A rapid goes at its percentage of `rapid`, and at least
    /// 16.
    pub fn nominal(&self, rate: &Rate, rapid: u64) -> u64
        requires rate { IsRate rate.now }
        requires rapid { rapid ≤ 1000000000 }
        ensures nominal { result ≡ nominal_of self.now rate.now rapid }
        ensures least { 16 ≤ rapid → 16 ≤ result }
        ensures most { IsOverrides self.now → 16 ≤ rapid → result ≤ rapid }
    {
        match *rate {
            Rate::Rapid => (rapid * self.rapid as u64 / 100).max(16),
            Rate::Feed(feed) => (feed.unsigned_abs() * self.feed as u64 / 6_000_000)
                .max(16)
                .min(rapid),
            Rate::Jog(feed) => (feed.unsigned_abs() * 100 / 6_000_000).max(16).min(rapid),
        }
    }
}
