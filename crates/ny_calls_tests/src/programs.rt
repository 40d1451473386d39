ghost use Rattle.std.specs.Prelude.{◌≤◌, ◌<◌, ◌^◌, length, IfOk};
ghost use Rattle.ny_syntax.specs.Sizes.{tree_size};

use ny_check::{Binds, Program, check};
use ny_lex::lex;
use ny_num::{Rate, Timing};
use ny_parse::parse;
use ny_syntax::{Tree, size_laws};
use ny_timing::{channel_timings, timing};
use ny_warp::Env;
use sqlite_items::Items;
use std::alloc::{AllocError, Global};
use std::test::Fail;

/// The tree of a text, which is no larger than the text.
fn tree_of(alloc: Global, text: &[u8]) -> Result<Tree, Fail>
    requires { length text.now ≤ 1048576 }
    ensures { IfOk result (λ tree. tree_size tree < 2 ^ 32) }
{
    size_laws();
    let tokens = match lex(alloc, text) {
        Ok(tokens) => tokens,
        Err(_) => return Err("no tokens".into()),
    };
    match parse(alloc, text, &tokens) {
        Ok(tree) => Ok(tree),
        Err(_) => Err("no tree".into()),
    }
}

/// The program of a text that is accepted.
fn program(alloc: Global, text: &[u8]) -> Result<Program, Fail> {
    if text.len() > 1_048_576 {
        return Err("too long".into());
    }
    let tree = tree_of(alloc, text)?;
    Ok(check(alloc, tree).ok().ok_or("refused")?)
}

/// When what a program plays is heard at 8000 Hz, in the opening environment.
fn played(alloc: Global, p: &Program) -> Result<Timing, AllocError> {
    let env = Env::open(alloc, Rate::R8000)?;
    let none: Binds<Timing> = Binds {
        names: Items::new(alloc),
    };
    timing(alloc, p, p.play(), &env, &none)
}

/// Texts; rate, start, length and stop of what they play.
const TIMES: [(&[u8], [u64; 4]); 8] = [
    (
        b"play seq(sustain(2, const(0.1, 0.002)), const(0.2, 0.002))",
        [8000, 0, 32, 2_822_400],
    ),
    (b"play pwl(0.01, 1, 0.01)", [2205, 0, 22, 7_056_000]),
    (
        b"play warp(map(0.001, 0.002, 0.002, 0.003), seq(const(0.1, 0.001), const(0.2, 0.001)))",
        [8000, 0, 24, 2_116_800],
    ),
    (
        b"play stretch(2, at(0.25, cue(const(1, 0.5))))",
        [8000, 8000, 8000, 1_411_200_000],
    ),
    (
        b"play const(1, 0.5) * at(0.25, const(1, 0.5))",
        [8000, 0, 4000, 352_800_000],
    ),
    (
        b"play seqrep(i, 3, const(1, 0.1 + i * 0.1))",
        [8000, 0, 4800, 423_360_000],
    ),
    (
        b"play at(3599, cue(const(1, 2)))",
        [8000, 28_800_000, 0, 2_540_160_000_000],
    ),
    (
        b"play seq(sound-srate-abs(44100, const(1, 0.00003)), const(1, 0.001))",
        [8000, 0, 8, 726_768],
    ),
];

#[test]
fn times_of_sounds(rt: HostRuntime) -> Result<(), Fail> {
    for (text, expected) in TIMES {
        let p = program(rt.alloc(), text)?;
        let t = played(rt.alloc(), &p)?;
        let found = [
            u64::from(t.rate.hz()),
            u64::from(t.start),
            u64::from(t.len),
            t.stop.get(),
        ];
        assert_eq!(rt; found, expected);
    }
    Ok(())
}

/// Texts, and the length of each channel at 44100 Hz.
const CHANNELS: [(&[u8], [u32; 2]); 3] = [
    (
        b"play vector(ramp(0.1), sound-srate-abs(48000, const(1, 0.1)))",
        [4420, 4410],
    ),
    (
        b"play begin with x = const(1, 0.5) return vector(at(1, x), cue(x) @ 1) end",
        [22_050, 66_150],
    ),
    (
        b"define function note(key, dur) return osc(key, dur) * pwl(0.02, 0.4, dur - 0.05, 0.3, dur)
define function line(base) return seqrep(i, 60, note(base + i / 4, 0.25))
define function echo(x) return sim(cue(x), scale(0.4, cue(x) @ 0.5))
play vector(echo(line(60)), echo(line(48)))",
        [683_550, 683_550],
    ),
];

#[test]
fn times_of_channels(rt: HostRuntime) -> Result<(), Fail> {
    for (text, expected) in CHANNELS {
        let p = program(rt.alloc(), text)?;
        let found = channel_timings(rt.alloc(), &p, Rate::R44100)?;
        assert_eq!(rt; found.len(), 2);
        for k in 0..2 {
            assert_eq!(rt; found[k].len, expected[k]);
        }
    }
    Ok(())
}
