//! What the object area costs, for `bench/area.py` to time. The first word of the command line is a
//! number of reads and writes, the second a number of areas of the greatest size.
#![tactic(auto)]

ghost use Rattle.std.specs.Prelude.{◌≡◌};
ghost use Rattle.obj_area.specs.Area.{top_of};

use obj_area::area::Area;
use std::alloc::AllocError;
use std::{env, io};

const WORDS: u32 = 4096;

const GREATEST: u32 = 1 << 25;

// Reads and writes each word of the area in turn, `count` times in all: a running sum.
fn sum_up(area: &mut Area, count: u32) -> u64
    requires { top_of area.old ≡ 4097 }
{
    let mut sum = 1u64;
    for i in 0..count {
        let at = 1 + i % WORDS;
        sum = sum.wrapping_add(area.word(at));
        area.set_word(at, sum);
    }
    sum
}

// Makes an area of the greatest size and gives out ten words of it, `count` times.
fn make_areas(rt: &HostRuntime, count: u32) -> Result<u64, AllocError> {
    let mut tops = 0u64;
    for _ in 0..count {
        let mut area = Area::new(rt.alloc(), GREATEST)?;
        let _ = area.make(10);
        tops = tops.wrapping_add(area.top() as u64);
    }
    Ok(tops)
}

fn run(rt: &HostRuntime, accesses: u32, areas: u32) -> io::Result<()> {
    let mut area = Area::new(rt.alloc(), WORDS)?;
    if area.make(WORDS).is_some() {
        println!(rt; "{}", sum_up(&mut area, accesses))?;
    }
    println!(rt; "{}", make_areas(rt, areas)?)
}

fn main(rt: HostRuntime) -> io::Result<()> {
    let mut words = env::args(&rt)?
        .skip(1)
        .map(|word| word.as_str().parse::<u32>().unwrap_or(0));
    let accesses = words.next().unwrap_or(0);
    let areas = words.next().unwrap_or(0);
    run(&rt, accesses, areas)
}
