//! The two words of flags that realtime bytes raise.

ghost use Rattle.std.specs.Prelude.{⊤};
ghost use Rattle.code_table.specs.Flags.{exec_bits, ovr_bits, exec_flags, ovr_flags};

use bitflags::{Flag, Flags, bitflag_items};

/// What realtime bytes ask of the controller at once.
#[derive(Clone, Copy, Debug, PartialEq, Eq)]
pub struct Exec(u8);

bitflag_items! {
    impl Exec: u8 {
        /// `?` asks for a status report.
        const REPORT = 1;
        /// `!` asks for a feed hold.
        const HOLD = 2;
        /// `~` asks for a cycle start or a resume.
        const START = 4;
        /// 0x18 asks for a soft reset.
        const RESET = 8;
        /// 0x85 asks for the end of a jog.
        const CANCEL = 16;
    }
}

impl Flags for Exec {
    type Bits = u8;

    ghost exact = { ⊤ };

    ghost table = { exec_flags };

    ghost set_of = { exec_bits };

    fn flags<'a>() -> &'a [Flag<Exec>] {
        Exec::FLAGS
    }

    fn bits(&self) -> u8 {
        self.0
    }

    fn from_bits_retain(bits: u8) -> Exec {
        Exec(bits)
    }
}

/// How realtime bytes change the overrides.
#[derive(Clone, Copy, Debug, PartialEq, Eq)]
pub struct Ovr(u16);

bitflag_items! {
    impl Ovr: u16 {
        /// 0x90 sets feeds to 100 percent.
        const FEED_100 = 1;
        /// 0x91 adds ten percent to feeds.
        const FEED_UP_10 = 2;
        /// 0x92 takes ten percent off feeds.
        const FEED_DOWN_10 = 4;
        /// 0x93 adds one percent to feeds.
        const FEED_UP_1 = 8;
        /// 0x94 takes one percent off feeds.
        const FEED_DOWN_1 = 16;
        /// 0x95 sets rapids to 100 percent.
        const RAPID_100 = 32;
        /// 0x96 sets rapids to 50 percent.
        const RAPID_50 = 64;
        /// 0x97 sets rapids to 25 percent.
        const RAPID_25 = 128;
        /// 0x99 sets spindle speeds to 100 percent.
        const SPINDLE_100 = 256;
        /// 0x9A adds ten percent to spindle speeds.
        const SPINDLE_UP_10 = 512;
        /// 0x9B takes ten percent off spindle speeds.
        const SPINDLE_DOWN_10 = 1024;
        /// 0x9C adds one percent to spindle speeds.
        const SPINDLE_UP_1 = 2048;
        /// 0x9D takes one percent off spindle speeds.
        const SPINDLE_DOWN_1 = 4096;
    }
}

impl Flags for Ovr {
    type Bits = u16;

    ghost exact = { ⊤ };

    ghost table = { ovr_flags };

    ghost set_of = { ovr_bits };

    fn flags<'a>() -> &'a [Flag<Ovr>] {
        Ovr::FLAGS
    }

    fn bits(&self) -> u16 {
        self.0
    }

    fn from_bits_retain(bits: u16) -> Ovr {
        Ovr(bits)
    }
}
