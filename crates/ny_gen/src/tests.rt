use crate::piece::generate;
use std::test::Fail;

/// The piece of 7 with two notes.
const TWO_NOTES: &[u8] =
    b"define function n(k, d) return osc(k, d) * pwl(0.01, 0.3, d - 0.02, 0.2, d)\ndefine function e(x) return sim(cue(x), scale(0.4, cue(x) @ 0.25))\nplay vector(e(seq(n(71, 0.15))), e(seq(n(63, 0.2))))\n";

// Memory is ample, so that the text is made: whole at two notes, and of the most.
#[test]
fn succeeds_with_ample_memory(rt: HostRuntime) -> Result<(), Fail> {
    let text = generate(rt.alloc(), 7, 2)?;
    assert_eq!(rt; text.as_slice(), TWO_NOTES);
    let most = generate(rt.alloc(), 4_294_967_295, 20_000)?;
    assert!(rt; most.len() > 200_000);
    Ok(())
}
