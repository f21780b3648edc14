//! Transactions that must succeed.
use crate::held::assert_that;
use nor_chip::Bus;
use std::process::Abort;

pub fn send(rt: &impl Abort, bus: &mut impl Bus, out: &[u8]) {
    assert_that!(rt; bus.transfer(out, &mut []).is_ok());
}

pub fn read<const N: usize>(rt: &impl Abort, bus: &mut impl Bus, out: &[u8]) -> [u8; N] {
    let mut reply = [0; N];
    assert_that!(rt; bus.transfer(out, &mut reply).is_ok());
    reply
}

/// Carries out a poll (05h) with one reply byte, and asserts that it succeeds.
pub fn poll(rt: &impl Abort, bus: &mut impl Bus) -> u8 {
    let [status1]: [u8; 1] = read(rt, bus, &[0x05]);
    status1
}
