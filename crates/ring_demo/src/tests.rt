//! Summaries of rings, over a stream in memory.
use crate::demo;
use board_run::{Rest, RunEnd};
use host_io::{Failing, MemSink, StoreFault, hex_of};
use std::alloc::Global;
use std::process::Abort;
use std::test::Fail;

/// The sum that the programs of a ring come to: 1,000 words from a value on, to each of which each later core adds its
/// number.
fn formula(number: u32) -> u32 {
    let cores = u64::from(number) % 15 + 2;
    let value = (u64::from(number) * 1_103_515_245 + 12_345) % 0x1_0000_0000;
    ((1_000 * value + 499_500 + 500 * cores * (cores - 1)) % 0x1_0000_0000) as u32
}

/// Prints the summary of a ring, of which each run is to end with all cores at their end.
fn check(
    rt: &impl Abort,
    alloc: Global,
    number: u32,
    sum: &str,
    printed: &str,
) -> Result<(), Fail> {
    let mut out = MemSink::new(Vec::new(alloc), Vec::new(alloc));
    let end = demo(alloc, number, &mut out);
    assert_eq!(rt; end, Ok(RunEnd::Rest(Rest::Ended)), "{number}");
    assert_eq!(rt; out.written(), printed.as_bytes(), "{number}");
    assert_eq!(rt;
        hex_of(formula(number)).as_slice(),
        sum.as_bytes(),
        "{number}"
    );
    Ok(())
}

#[test]
fn three_orders_give_one_sum(rt: HostRuntime) -> Result<(), Fail> {
    check(
        &rt,
        rt.alloc(),
        0,
        "00C401BC",
        "demo 0 cores 2
ascending items 1000 sum 00C401BC
descending items 1000 sum 00C401BC
rotating items 1000 sum 00C401BC
",
    )?;
    check(
        &rt,
        rt.alloc(),
        1,
        "EF666354",
        "demo 1 cores 3
ascending items 1000 sum EF666354
descending items 1000 sum EF666354
rotating items 1000 sum EF666354
",
    )
}

#[test]
fn the_longest_ring(rt: HostRuntime) -> Result<(), Fail> {
    check(
        &rt,
        rt.alloc(),
        14,
        "0DA6BB84",
        "demo 14 cores 16
ascending items 1000 sum 0DA6BB84
descending items 1000 sum 0DA6BB84
rotating items 1000 sum 0DA6BB84
",
    )
}

#[test]
fn the_greatest_number(rt: HostRuntime) -> Result<(), Fail> {
    check(
        &rt,
        rt.alloc(),
        999_999,
        "D8967CE4",
        "demo 999999 cores 11
ascending items 1000 sum D8967CE4
descending items 1000 sum D8967CE4
rotating items 1000 sum D8967CE4
",
    )
}

#[test]
fn a_refused_write_leaves_a_prefix(rt: HostRuntime) -> Result<(), Fail> {
    let alloc = rt.alloc();
    let mut failing = Vec::new(alloc);
    failing.push(Failing { call: 0, moved: 11 })?;
    let mut out = MemSink::new(Vec::new(alloc), failing);
    assert_eq!(rt; demo(alloc, 0, &mut out), Err(StoreFault::Failed));
    assert_eq!(rt; out.written(), b"demo 0 core".as_slice());
    Ok(())
}
