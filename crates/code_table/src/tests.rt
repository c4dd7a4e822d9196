//! The rows of the standard.

use crate::{Exec, Ovr, Table, g_codes, m_codes, realtime_rows, setting_rows};
use bitflags::Flags;

#[test]
fn each_g_code_has_its_group(rt: HostRuntime) {
    let table = g_codes();
    for (group, keys) in [
        (0, [40, 100, 280, 281, 300, 301, 530, 920, 921].as_slice()),
        (1, [0, 10, 800].as_slice()),
        (2, [170, 180, 190].as_slice()),
        (3, [900, 910].as_slice()),
        (4, [911].as_slice()),
        (5, [940].as_slice()),
        (6, [200, 210].as_slice()),
        (7, [400].as_slice()),
        (8, [490].as_slice()),
        (12, [540, 550, 560, 570, 580, 590].as_slice()),
        (13, [610].as_slice()),
    ] {
        for key in keys {
            assert_eq!(rt; table.find(*key), Some(group), "code {key}");
        }
    }
    for key in [1, 20, 30, 382, 431, 611, 930, 941] {
        assert_eq!(rt; table.find(key), None, "code {key}");
    }
}

#[test]
fn each_m_code_has_its_group(rt: HostRuntime) {
    let table = m_codes();
    for (group, keys) in [
        (20, [0, 10, 20, 300].as_slice()),
        (21, [30, 40, 50].as_slice()),
        (22, [80, 90].as_slice()),
    ] {
        for key in keys {
            assert_eq!(rt; table.find(*key), Some(group), "code {key}");
        }
    }
    for key in [1, 60, 70, 301] {
        assert_eq!(rt; table.find(key), None, "code {key}");
    }
}

#[test]
fn each_setting_has_its_place(rt: HostRuntime) {
    let rows = setting_rows();
    let numbers = [
        10, 11, 20, 100, 101, 102, 110, 111, 112, 120, 121, 122, 130, 131, 132,
    ];
    for (place, number) in (0..15).zip(numbers) {
        assert_eq!(rt; rows.find(number), Some(place), "setting {number}");
    }
    assert_eq!(rt; rows.find(5), None);
}

#[test]
fn each_request_byte_raises_its_flag(rt: HostRuntime) {
    let rows = realtime_rows();
    for (byte, bit, flag, bits) in [
        (0x3f, 0, Exec::REPORT, 0b1),
        (0x21, 1, Exec::HOLD, 0b10),
        (0x7e, 2, Exec::START, 0b100),
        (0x18, 3, Exec::RESET, 0b1000),
        (0x85, 4, Exec::CANCEL, 0b10000),
    ] {
        assert_eq!(rt; rows.find(byte), Some(bit), "byte {byte}");
        assert_eq!(rt; flag.bits(), bits, "byte {byte}");
    }
    for byte in [0, 0x20, 0x80, 0x84, 0x98, 0x9e, 0xa0] {
        assert_eq!(rt; rows.find(byte), None, "byte {byte}");
    }
}

#[test]
fn each_override_byte_raises_its_flag(rt: HostRuntime) {
    let rows = realtime_rows();
    for (byte, bit, flag, bits) in [
        (0x90, 16, Ovr::FEED_100, 0x1),
        (0x91, 17, Ovr::FEED_UP_10, 0x2),
        (0x92, 18, Ovr::FEED_DOWN_10, 0x4),
        (0x93, 19, Ovr::FEED_UP_1, 0x8),
        (0x94, 20, Ovr::FEED_DOWN_1, 0x10),
        (0x95, 21, Ovr::RAPID_100, 0x20),
        (0x96, 22, Ovr::RAPID_50, 0x40),
        (0x97, 23, Ovr::RAPID_25, 0x80),
        (0x99, 24, Ovr::SPINDLE_100, 0x100),
        (0x9a, 25, Ovr::SPINDLE_UP_10, 0x200),
        (0x9b, 26, Ovr::SPINDLE_DOWN_10, 0x400),
        (0x9c, 27, Ovr::SPINDLE_UP_1, 0x800),
        (0x9d, 28, Ovr::SPINDLE_DOWN_1, 0x1000),
    ] {
        assert_eq!(rt; rows.find(byte), Some(bit), "byte {byte}");
        assert_eq!(rt; flag.bits(), bits, "byte {byte}");
    }
}

#[test]
fn rows_come_in_any_order_and_no_key_twice(rt: HostRuntime) {
    assert!(rt; Table::new([7, 3, 7], [1, 2, 3]).is_none());
    match Table::new([30, 10, 20], [3, 1, 2]) {
        Some(table) => {
            for (key, value) in [
                (10, Some(1)),
                (20, Some(2)),
                (30, Some(3)),
                (15, None),
                (31, None),
            ] {
                assert_eq!(rt; table.find(key), value, "key {key}");
            }
        }
        None => assert!(rt; false, "the keys differ"),
    }
}
