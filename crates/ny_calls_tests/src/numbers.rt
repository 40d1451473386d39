use ny_num::{Fix, Rate, write_decimal};
use std::test::Fail;

#[test]
fn numbers_as_texts(rt: HostRuntime) -> Result<(), Fail> {
    let rows: [(i64, &[u8]); 4] = [
        (1, b"0.000001"),
        (-12_000_000, b"-12"),
        (1_020_300, b"1.0203"),
        (-9_007_199_254_740_992, b"-9007199254.740992"),
    ];
    for (micro, text) in rows {
        assert_eq!(rt; write_decimal(rt.alloc(), Fix::of(micro))?.as_slice(), text);
    }
    Ok(())
}

#[test]
fn rates_by_their_samples(rt: HostRuntime) {
    assert_eq!(rt; Rate::of(44_100), Some(Rate::R44100));
    assert_eq!(rt; Rate::of(44_101), None);
}
