use gimv_core::{Closing, Gimv, One};
use hcc::Hcc;
use peg_text::NoMemory;

#[test]
fn texts_are_decimals_without_leading_zeros(rt: HostRuntime) -> Result<(), NoMemory> {
    let alloc = rt.alloc();
    let hcc = Hcc::new();
    let rows: [(&[u8], Option<u64>); 4] = [
        (b"12", Some(12)),
        (b"x", None),
        (b"18446744073709551615", Some(u64::MAX)),
        (b"18446744073709551616", None),
    ];
    for (text, label) in rows {
        assert_eq!(rt; hcc.read_val(alloc, text)?, label);
        assert_eq!(rt; hcc.read_msg(text), label);
    }
    for label in [0, 12, u64::MAX] {
        let mut out = Vec::new(alloc);
        hcc.write_val(alloc, &mut out, &label)?;
        assert_eq!(rt; hcc.read_val(alloc, &out)?, Some(label));
        let length = out.len();
        hcc.write_msg(alloc, &mut out, &label)?;
        assert_eq!(rt; &out[length..], &out[..length]);
    }
    let mut out = Vec::new(alloc);
    hcc.write_val(alloc, &mut out, &12)?;
    assert_eq!(rt; out.as_slice(), b"12".as_slice());
    assert_eq!(rt; hcc.read_weight(b"1"), Some(One));
    assert_eq!(rt; hcc.read_weight(b"01"), None);
    Ok(())
}

#[test]
fn nodes_take_over_the_least_label(rt: HostRuntime) -> Result<(), NoMemory> {
    let alloc = rt.alloc();
    let hcc = Hcc::new();
    assert_eq!(rt; hcc.unit(), u64::MAX);
    let mut all = hcc.unit();
    hcc.combine(&mut all, &hcc.combine2(&One, &3));
    hcc.combine(&mut all, &hcc.combine2(&One, &5));
    assert_eq!(rt; all, 3);
    let first = hcc.first(alloc, 4)?;
    assert_eq!(rt; first, 4);
    assert_eq!(rt; hcc.assign(alloc, &first, &all)?, 3);
    assert_eq!(rt; hcc.assign(alloc, &2, &all)?, 2);
    assert!(rt; hcc.same(&3, &3));
    assert!(rt; !hcc.same(&3, &4));
    assert_eq!(rt; hcc.number(&3), 3);
    assert_eq!(rt; hcc.as_msg(&3), 3);
    Ok(())
}

/// The next of a series of numbers that look random.
fn next(number: u64) -> u64 {
    number
        .wrapping_mul(6_364_136_223_846_793_005)
        .wrapping_add(1_442_695_040_888_963_407)
}

#[test]
fn random_labels_fall_to_the_least(rt: HostRuntime) -> Result<(), NoMemory> {
    let alloc = rt.alloc();
    let hcc = Hcc::new();
    let mut number = 1;
    for _ in 0..1000u32 {
        let old = next(number);
        let one = next(old) >> 1;
        let two = next(one) >> 2;
        number = next(two);
        let mut all = hcc.unit();
        hcc.combine(&mut all, &hcc.combine2(&One, &one));
        hcc.combine(&mut all, &hcc.combine2(&One, &two));
        let sent = if one < two { one } else { two };
        let least = if old < sent { old } else { sent };
        let new = hcc.assign(alloc, &old, &all)?;
        assert_eq!(rt; new, least);
        assert_eq!(rt; hcc.same(&old, &new), old <= sent);
        let mut text = Vec::new(alloc);
        hcc.write_val(alloc, &mut text, &new)?;
        assert_eq!(rt; hcc.read_val(alloc, &text)?, Some(new));
        assert_eq!(rt; text, format!(in alloc; "{least}")?.into_bytes());
    }
    Ok(())
}
