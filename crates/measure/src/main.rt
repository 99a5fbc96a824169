//! Does one piece of work many times, so that a tool outside can count what it costs: `measure WORK
//! TIMES`. It prints the work's last answer. `bench/blocks.sh` and `bench/files.sh` run it.
#![tactic(auto)]

mod counted;
mod files;

ghost use Rattle.fv_codec.specs.Blocks.{IsNode};

use fv_bits::BitMap;
use fv_codec::Node;
use fv_disk::Disk;
use fv_memdisk::{MemHost, Tear};
use std::alloc::{AllocError, Global};
use std::{env, io};

/// The greatest number of blocks of an aggregate.
const NUMBERS: u32 = 1_048_576;

fn main(rt: HostRuntime) -> io::Result<()> {
    let mut words = env::args(&rt)?.skip(1);
    let work = words.next();
    let times = words.next();
    let (Some(work), Some(times)) = (work, times) else {
        return Ok(());
    };
    let times = times.as_str().parse::<u32>().unwrap_or(0);
    let answer = answer_of(rt.alloc(), work.as_str(), times)?;
    println!(rt; "{answer}")
}

/// The last answer of some work, and 0 for work that has no name here.
fn answer_of(alloc: Global, work: &str, times: u32) -> Result<u64, AllocError> {
    match work {
        "count" => count(alloc, times),
        "first_free" => first_free(alloc, times),
        "encode" => Ok(encode(times)),
        "decode" => Ok(decode(times)),
        "copy" => Ok(copy(times)),
        "host" => host(alloc, times),
        "get" => files::gets(alloc, times),
        "cached" => files::cached_gets(alloc, times),
        "cold" => files::cold_gets(alloc, times),
        "look" => Ok(files::looks(times)),
        "put" => files::puts(alloc, times),
        _ => Ok(0),
    }
}

/// A map of which each number is a member.
fn full_map(alloc: Global, numbers: u32) -> Result<BitMap, AllocError> {
    let mut map = BitMap::new(alloc, numbers)?;
    fill(&mut map);
    Ok(map)
}

fn fill(map: &mut BitMap) {
    for i in 0..map.len() {
        map.set(i);
    }
}

fn count(alloc: Global, times: u32) -> Result<u64, AllocError> {
    let map = full_map(alloc, NUMBERS)?;
    let mut members = 0;
    for _ in 0..times {
        members = map.count();
    }
    Ok(u64::from(members))
}

fn first_free(alloc: Global, times: u32) -> Result<u64, AllocError> {
    let map = full_map(alloc, NUMBERS)?;
    let mut free = 0;
    for _ in 0..times {
        free = map.first_free(0).unwrap_or(NUMBERS);
    }
    Ok(u64::from(free))
}

/// A node whose last pointer alone is no hole.
fn node_block() -> [u8; 4096] {
    let mut block = [0u8; 4096];
    block[..8].copy_from_slice(b"FVNODE00");
    block[15] = 1;
    block[4095] = 1;
    block
}

fn encode(times: u32) -> u64 {
    let mut into = [0u8; 4096];
    if let Ok(node) = Node::decode(&node_block()) {
        encode_often(&node, times, &mut into);
    }
    u64::from(into[4095])
}

fn encode_often(node: &Node, times: u32, into: &mut [u8; 4096])
    requires { IsNode node.now }
{
    for _ in 0..times {
        node.encode(into);
    }
}

fn decode(times: u32) -> u64 {
    let block = node_block();
    let mut level = 0;
    for _ in 0..times {
        level = Node::decode(&block).map_or(0, |node| node.level);
    }
    u64::from(level)
}

fn copy(times: u32) -> u64 {
    let mut from = [7u8; 4096];
    let mut into = [0u8; 4096];
    for time in 0..times {
        from[4095] = into[0] ^ (time % 256) as u8;
        into.copy_from_slice(&from);
    }
    u64::from(into[4095])
}

/// So many writes to a host in memory with a barrier each 100, and an image of its last moment.
fn host(alloc: Global, writes: u32) -> Result<u64, AllocError> {
    let mut host = MemHost::new(alloc, Vec::new(alloc));
    for number in 0..writes {
        let _ = host.write(u64::from(number % 1000), &[7; 4096]);
        if number % 100 == 99 {
            let _ = host.barrier();
        }
    }
    image_now(&host)
}

fn image_now(host: &MemHost) -> Result<u64, AllocError> {
    let image = host.image(host.moments() - 1, Tear::New)?;
    Ok(image.moments())
}
