// Small scripts, and lines that are refused.
use super::*;
use std::alloc::Global;
use std::test::Fail;

// XMIT 5,R7 selects port 5 of the left bank.
const CODE: [u8; 2] = [0xc7, 0x05];

const CALLS: &str = "regs 0 1 2 3 4 5 6 7 8 9 A b C d E f
port L 05 f0 03
port R ff 12 00

drive L 5 ff
cycle 0 1
cycle 0 0
cycle 0 0
state
";

const ANSWERS: &str = "drive L 05 ff: ok
cycle 0 1: ok
cycle 0 0: ok
cycle 0 0: engine 17 at 1
state pc 0001 ar 0001 ready 10 regs 00 01 02 03 04 05 06 05 00 09 0a 0b 0c 0d 0e 0f left a561aad5d98d4071 right d80ad458736bceef
";

const RUN_ANSWERS: &str = "run 70000: finished 0 engine 16 at 0
run 1: finished 1
run 9: finished 0 engine 17 at 1
";

// Scripts with one wrong line, and what is said of it.
const WRONG: [(&str, &str); 21] = [
    ("walk 100", "line 1: unknown word: walk"),
    ("\n \ncycle 0 0\nCycle 0 0", "line 4: unknown word: Cycle"),
    ("regs 1 2 3", "line 1: expected 16 registers"),
    (
        "regs 0 1 2 3 4 5 6 7 8 9 a b c d e f 10",
        "line 1: expected 16 registers",
    ),
    (
        "regs 0 1 2 3 4 5 6 7 8 9 a b c d e 1g",
        "line 1: not a byte in hex: 1g",
    ),
    ("port L 05 f0", "line 1: a word is missing"),
    ("port L 05 f0 03 1", "line 1: too many words"),
    ("port l 05 f0 03", "line 1: not a bank, L or R: l"),
    ("drive L 05", "line 1: a word is missing"),
    ("drive L 05 ff 0", "line 1: too many words"),
    ("drive L 100 ff", "line 1: not a byte in hex: 100"),
    ("cycle 0", "line 1: a word is missing"),
    ("cycle 0 0 0", "line 1: too many words"),
    ("cycle 0 2", "line 1: not a level, 0 or 1: 2"),
    ("run", "line 1: a word is missing"),
    ("run 1f", "line 1: not a count in decimal: 1f"),
    (
        "run 18446744073709551616",
        "line 1: not a count in decimal: 18446744073709551616",
    ),
    ("state 0", "line 1: too many words"),
    (
        "regs 0 0 0 0 0 0 0 0 0 0 0 0 0 0 0 0\nregs 0 0 0 0 0 0 0 0 0 0 0 0 0 0 0 0",
        "line 2: the registers are given already",
    ),
    (
        "state\nport L 05 f0 03",
        "line 2: regs and port come before the first call",
    ),
    (
        "drive L 05 ff\n\nregs 0 0 0 0 0 0 0 0 0 0 0 0 0 0 0 0",
        "line 3: regs and port come before the first call",
    ),
];

fn message(heap: Global, script: &str) -> Result<String, Fail> {
    let mut out = Vec::new(heap);
    match play(script, &CODE, &mut out) {
        Ok(()) => Err(Fail::new("played to its end")),
        Err(fault) => Ok(fault.to_string(heap)?),
    }
}

#[test]
fn wrong_lines_are_refused(rt: HostRuntime) -> Result<(), Fail> {
    for (script, fault) in WRONG {
        let said = message(rt.alloc(), script)?;
        assert_eq!(rt; said.as_str(), fault, "{}", script);
    }
    Ok(())
}

#[test]
fn calls_are_answered(rt: HostRuntime) {
    let mut out = Vec::new(rt.alloc());
    assert!(rt; play(CALLS, &CODE, &mut out).is_ok());
    assert_eq!(rt; out.as_slice(), ANSWERS.as_bytes());
}

#[test]
fn runs_are_answered(rt: HostRuntime) {
    let mut out = Vec::new(rt.alloc());
    assert!(rt; play("run 70000\nrun 1\nrun 9", &CODE, &mut out).is_ok());
    assert_eq!(rt; out.as_slice(), RUN_ANSWERS.as_bytes());
}

#[test]
fn answers_before_a_wrong_line_are_written(rt: HostRuntime) {
    let mut out = Vec::new(rt.alloc());
    assert!(rt; play("cycle 1 1\ncycle", &CODE, &mut out).is_err());
    assert_eq!(rt; out.as_slice(), b"cycle 1 1: ok\n".as_slice());
}
