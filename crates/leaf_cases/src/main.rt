//! Prints what the rules answer about pairs of leaves that lie at the edges of their definitions; the
//! expected output was worked out by hand from docs/RULES.md.
#![tactic(auto)]

use rules::assemblies;
use rules::leaf::Leaf;
use rules::number::AddressRule;
use rules::rule::LeafRule;
use rules::stamp::Stamp;
use rules::words::{Ordered, Truth};
use std::io;

const NEGATIVE_ZERO: u64 = 0x8000_0000_0000_0000;

const NAN: u64 = 0x7ff8_0000_0000_0001;

const INFINITY: u64 = 0x7ff0_0000_0000_0000;

const HALF: u64 = 0x3fe0_0000_0000_0000;

const MINUS_TWO: u64 = 0xffff_ffff_ffff_fffe;

/// Two leaves, each as its tag and its value.
type Case = ((u16, u64), (u16, u64));

const NUMBERS: [Case; 14] = [
    ((1, 7), (1, 7)),
    ((1, MINUS_TWO), (1, 1)),
    ((2, MINUS_TWO), (2, 1)),
    ((3, 2), (3, 1)),
    ((4, 0), (4, NEGATIVE_ZERO)),
    ((4, NAN), (4, NAN)),
    ((4, HALF), (4, INFINITY)),
    ((4, HALF), (4, NEGATIVE_ZERO)),
    ((5, 7), (5, 7)),
    ((1, 7), (5, 7)),
    ((5, 7), (1, 7)),
    ((1, 7), (2, 7)),
    ((6, 7), (6, 7)),
    ((0, 7), (1, 7)),
];

const ADDRESSES: [Case; 6] = [
    ((1, 0x0001_0000_0000_0400), (1, 0x0001_0000_0000_0800)),
    ((1, 0x0001_0000_0000_0400), (1, 0x0002_0000_0000_0400)),
    ((2, 16), (2, 8)),
    ((3, 1), (3, 1)),
    ((3, 1), (3, 2)),
    ((2, 16), (3, 16)),
];

fn print_cases<R: LeafRule>(
    rt: &impl Print,
    rule: &R,
    title: &str,
    cases: &[Case],
) -> io::Result<()> {
    for &((one, v), (two, w)) in cases {
        let p = Leaf { tag: one, value: v };
        let q = Leaf { tag: two, value: w };
        let admits = rule.admits(p);
        let eq = Truth(rule.eq(p, q));
        let cmp = Ordered(rule.cmp(p, q));
        let beside = Truth(rule.beside(p));
        let hashes = rule.hash(p).is_some();
        println!(rt;
            "{title} {one} {two}: admits {admits}, eq {eq}, cmp {cmp}, beside {beside}, hashes {hashes}"
        )?;
    }
    Ok(())
}

fn main(rt: HostRuntime) -> io::Result<()> {
    print_cases(&rt, &assemblies::board(), "number", &NUMBERS)?;
    print_cases(&rt, &AddressRule, "address", &ADDRESSES)?;
    print_cases(&rt, &assemblies::release(3), "release", &ADDRESSES)?;
    let twice = Stamp::over(assemblies::release(3), 2);
    print_cases(&rt, &twice, "twice", &ADDRESSES)
}
