// Words and the numbers that they say, where those lie in a range.
use crate::ngctl::same::holds;
use ng_decimal::read_decimal;

const READ: [(&str, u64, u64, Option<u64>); 18] = [
    ("0", 0, u64::MAX, Some(0)),
    ("7", 0, u64::MAX, Some(7)),
    ("10", 0, u64::MAX, Some(10)),
    (
        "18446744073709551615",
        0,
        u64::MAX,
        Some(18_446_744_073_709_551_615),
    ),
    ("18446744073709551616", 0, u64::MAX, None),
    (
        "99999999999999999999999999999999999999999999",
        0,
        u64::MAX,
        None,
    ),
    ("", 0, u64::MAX, None),
    ("00", 0, u64::MAX, None),
    ("01", 0, u64::MAX, None),
    ("+1", 0, u64::MAX, None),
    ("-1", 0, u64::MAX, None),
    ("1 ", 0, u64::MAX, None),
    ("0x1", 0, u64::MAX, None),
    ("1a", 0, u64::MAX, None),
    ("4", 5, 9, None),
    ("5", 5, 9, Some(5)),
    ("9", 5, 9, Some(9)),
    ("10", 5, 9, None),
];

#[test]
fn words_are_read(rt: HostRuntime) {
    for (word, least, most, number) in READ {
        holds(
            &rt,
            read_decimal(word.as_bytes(), least, most) == number,
            word,
        );
    }
}
