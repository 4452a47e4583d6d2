//! Numbers of values.
use number_values::{Encoding, NumberText, Op};

#[test]
fn decimal_numbers_are_read(rt: HostRuntime) {
    let decimals: [(&[u8], Option<i64>); 17] = [
        (b"7", Some(7)),
        (b"007", Some(7)),
        (b"+5", Some(5)),
        (b"-0", Some(0)),
        (b"+0", Some(0)),
        (b"9223372036854775807", Some(i64::MAX)),
        (b"9223372036854775808", None),
        (b"-9223372036854775808", Some(i64::MIN)),
        (b"-9223372036854775809", None),
        (b"00000000000000000000000000000012", Some(12)),
        (b"-00000000000000000000000000000012", Some(-12)),
        (b"000000000000000000000000000000012", None),
        (b"", None),
        (b"-", None),
        (b"+-1", None),
        (b"1 ", None),
        (b"\xb2", None),
    ];
    for (i, (bytes, number)) in decimals.iter().enumerate() {
        assert!(rt; Encoding::String.number(bytes) == *number, "{i}");
    }
}

#[test]
fn fixed_numbers_are_read(rt: HostRuntime) {
    let fixed: [(&[u8], Option<i64>); 6] = [
        (b"\0\0\0\0\0\0\0\x05", Some(5)),
        (b"\xff\xff\xff\xff\xff\xff\xff\xfe", Some(-2)),
        (b"\x7f\xff\xff\xff\xff\xff\xff\xff", Some(i64::MAX)),
        (b"\x80\0\0\0\0\0\0\0", Some(i64::MIN)),
        (b"\0\0\0\0\0\0\x05", None),
        (b"\0\0\0\0\0\0\0\0\x05", None),
    ];
    for (i, (bytes, number)) in fixed.iter().enumerate() {
        assert!(rt; Encoding::Fixed.number(bytes) == *number, "{i}");
    }
}

/// Whether a text becomes each of a number's texts.
fn is_written(text: &mut NumberText, number: i64, decimal: &[u8], fixed: &[u8]) -> bool {
    text.write(Encoding::String, number);
    let in_decimal = text.bytes() == decimal;
    text.write(Encoding::Fixed, number);
    in_decimal && text.bytes() == fixed
}

#[test]
fn numbers_are_written(rt: HostRuntime) {
    let texts: [(i64, &[u8], &[u8]); 4] = [
        (0, b"0", b"\0\0\0\0\0\0\0\0"),
        (7, b"7", b"\0\0\0\0\0\0\0\x07"),
        (-2, b"-2", b"\xff\xff\xff\xff\xff\xff\xff\xfe"),
        (i64::MIN, b"-9223372036854775808", b"\x80\0\0\0\0\0\0\0"),
    ];
    let mut text = NumberText::new();
    for (number, decimal, fixed) in texts {
        assert!(rt; is_written(&mut text, number, decimal, fixed), "{number}");
    }
}

fn are_joined() -> bool {
    Op::Sum.join(i64::MAX - 1, 5) == i64::MAX
        && Op::Sum.join(2, 5) == 7
        && Op::Min.join(-2, 5) == -2
        && Op::Max.join(-2, 5) == 5
}

#[test]
fn numbers_are_joined(rt: HostRuntime) {
    assert!(rt; are_joined());
}

#[test]
fn a_sum_takes_no_negative_numbers(rt: HostRuntime) {
    assert!(rt; !Op::Sum.reads(Encoding::String, b"-1"));
    assert!(rt; Op::Min.reads(Encoding::String, b"-1"));
}
