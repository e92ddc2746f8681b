//! Profiles of worked boards, to the byte.
use crate::board_tests::{LOAD_CHAIN, Row, check};
use std::test::Fail;

const PROFILE: &[&str] = &["profile", "b"];

/// 15 / 3 + 1 in r6.
const DIVIDE: &str = "30600003 3080000F 48A32000 30C50001 B8000000";

/// r3 counted down from 3.
const LOOP: &str = "30600003 3063FFFF BC23FFFC B8000000";

/// One core on a pipeline, its image, and what is printed.
const ALONE: [(&str, &str, &str); 5] = [
    (
        "\ncore.a = {image = 'a.elf', pipeline = 'eight'}\n",
        LOAD_CHAIN,
        "status 0 cycles 50 entries 0
core a ended pc 0000002C acts 11
profile a acted 11 start 3 hold 0 operand 36 redirect 0 divide 0 waiting 0 sleeping 0 done 0
",
    ),
    (
        "\ncore.a = {image = 'a.elf', pipeline = 'three'}\n",
        LOAD_CHAIN,
        "status 0 cycles 22 entries 0
core a ended pc 0000002C acts 11
profile a acted 11 start 2 hold 9 operand 0 redirect 0 divide 0 waiting 0 sleeping 0 done 0
",
    ),
    (
        "\ncore.a = {image = 'a.elf', pipeline = 'five'}\n",
        LOAD_CHAIN,
        "status 0 cycles 23 entries 0
core a ended pc 0000002C acts 11
profile a acted 11 start 3 hold 0 operand 9 redirect 0 divide 0 waiting 0 sleeping 0 done 0
",
    ),
    (
        "\ncore.a = {image = 'a.elf', pipeline = 'five'}\n",
        DIVIDE,
        "status 0 cycles 40 entries 0
core a ended pc 00000010 acts 4
profile a acted 4 start 3 hold 0 operand 0 redirect 0 divide 33 waiting 0 sleeping 0 done 0
",
    ),
    (
        "\ncore.a = {image = 'a.elf', pipeline = 'five'}\n",
        LOOP,
        "status 0 cycles 14 entries 0
core a ended pc 0000000C acts 7
profile a acted 7 start 3 hold 0 operand 0 redirect 4 divide 0 waiting 0 sleeping 0 done 0
",
    ),
];

#[test]
fn one_core_has_its_profile_on_each_pipeline(rt: HostRuntime) -> Result<(), Fail> {
    for (parts, image, printed) in ALONE {
        let row = Row {
            words: PROFILE,
            parts,
            images: [image, ""],
            printed,
            left: [None, None],
            ..Row::relay()
        };
        check(&rt, rt.alloc(), &row)?;
    }
    Ok(())
}

#[test]
fn the_relay_has_its_profile_and_no_file(rt: HostRuntime) -> Result<(), Fail> {
    let row = Row {
        words: PROFILE,
        printed: "status 0 cycles 4 entries 5
core a ended pc 00000008 acts 2
core b ended pc 00000008 acts 2
link x sent 1 taken 1
link y sent 1 taken 1
profile a acted 2 start 0 hold 0 operand 0 redirect 0 divide 0 waiting 0 sleeping 0 done 2
profile b acted 2 start 0 hold 0 operand 0 redirect 0 divide 0 waiting 1 sleeping 0 done 1
",
        left: [None, None],
        ..Row::relay()
    };
    check(&rt, rt.alloc(), &row)?;
    check(
        &rt,
        rt.alloc(),
        &Row {
            words: &["profile", "b", "--write-journal", "journal"],
            code: 4,
            printed: "",
            told: "mbsim: usage\n",
            ..row
        },
    )
}
