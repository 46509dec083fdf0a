use digit_names::*;
use std::test::Fail;

#[test]
fn numbers_are_filled_with_zeros(rt: HostRuntime) -> Result<(), Fail> {
    let alloc = rt.alloc();
    for (number, width, want) in [
        (0, 1, "merge-0"),
        (63, 5, "merge-00063"),
        (123456, 5, "merge-23456"),
        (u64::MAX, 20, "merge-18446744073709551615"),
    ] {
        let name = numbered(alloc, b"merge-", number, width)?;
        assert_eq!(rt; name.text(), want);
    }
    Ok(())
}
