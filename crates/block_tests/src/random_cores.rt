//! Every number of cores of one block, and a few cores again and again, entered and left in orders that look random, against
//! a plain set.
ghost use Rattle.std.specs.Prelude.{◌≤◌, ◌<◌};

use crate::fixtures::{EMPTY, acquired, block, entry_count, keep};
use cid::Cid;
use cid::digests::Toy;
use std::alloc::Global;
use std::process::Abort;
use store::{Hold, Shard, TableKey};

/// Numbers that look random, the same in each run.
#[derive(Drop)]
struct Numbers {
    state: u64,
}

impl Numbers {
    /// The numbers from their first one on.
    fn new() -> Numbers {
        Numbers {
            state: 0x2545_f491_4f6c_dd1d,
        }
    }

    /// The next number below `bound`.
    fn below(&mut self, bound: usize) -> usize
        requires { 1 ≤ bound }
        ensures { result < bound }
    {
        self.state ^= self.state << 13;
        self.state ^= self.state >> 7;
        self.state ^= self.state << 17;
        (self.state >> 16) as usize % bound
    }

    /// Puts the cores in another order.
    fn shuffle(&mut self, cores: &mut [u32; 1024]) {
        for place in 1..1024usize {
            let other = self.below(place + 1);
            cores.swap(place, other);
        }
    }

    /// Puts the holds in another order.
    fn shuffle_holds(&mut self, holds: &mut Vec<Hold<Toy>>) {
        for place in 1..holds.len() {
            let other = self.below(place + 1);
            holds.as_mut_slice().swap(place, other);
        }
    }
}

/// A plain set of cores: at each core's place whether it is in.
#[derive(Drop)]
struct Plain {
    has: [bool; 1024],
}

impl Plain {
    /// The set without a core.
    fn empty() -> Plain {
        Plain { has: [false; 1024] }
    }

    /// How many cores are in.
    fn count(&self) -> u16 {
        let mut count = 0u16;
        for has in self.has {
            count = count.saturating_add(u16::from(has));
        }
        count
    }

    /// Whether the table has just these cores for the empty map, asked one by one and stepped to from core to core, and no
    /// other entry.
    fn is_in(&self, shard: &Shard<Toy>) -> bool {
        for (_, cores) in shard.entries() {
            let mut next = cores.next_from(0);
            for core in 0..1024u32 {
                let has = self.has[core as usize];
                if cores.has(core) != has || (next == Some(core)) != has {
                    return false;
                }
                if has {
                    next = cores.next_from(core + 1);
                }
            }
            if next.is_some() {
                return false;
            }
        }
        let count = self.count();
        shard.count(&Cid::of::<Toy>(&EMPTY)) == u64::from(count)
            && entry_count(shard) == usize::from(count > 0)
    }
}

/// Enters the core for the empty map and keeps its hold with the others.
fn enter<R: Abort>(
    rt: &R,
    alloc: Global,
    shard: &mut Shard<Toy>,
    core: u32,
    holds: &mut Vec<Hold<Toy>>,
    plain: &mut Plain,
)
    requires { core < 1024 }
{
    let hold = acquired(rt, shard, core, block(rt, alloc, &EMPTY));
    keep(rt, holds, hold);
    plain.has[core as usize] = true;
}

/// Releases the hold.
fn leave(shard: &mut Shard<Toy>, hold: Hold<Toy>, plain: &mut Plain) {
    plain.has[hold.core() as usize] = false;
    shard.release(hold);
}

/// Enters these cores, one after the other, and answers their holds: after each the table must have just those that came.
fn enter_each<R: Abort>(
    rt: &R,
    alloc: Global,
    shard: &mut Shard<Toy>,
    cores: &[u32],
    plain: &mut Plain,
) -> Vec<Hold<Toy>> {
    let mut holds = Vec::new(alloc);
    for core in cores {
        let core = *core % 1024;
        enter(rt, alloc, shard, core, &mut holds, plain);
        assert!(rt; plain.is_in(shard), "with core {core}");
    }
    holds
}

/// Releases these holds, the last one first: after each the table must have just those that are left.
fn leave_each<R: Abort>(
    rt: &R,
    shard: &mut Shard<Toy>,
    mut holds: Vec<Hold<Toy>>,
    plain: &mut Plain,
) {
    while let Some(hold) = holds.pop() {
        let core = hold.core();
        leave(shard, hold, plain);
        assert!(rt; plain.is_in(shard), "without core {core}");
    }
    holds.destroy_empty();
}

#[test]
fn every_number_of_cores(rt: HostRuntime) {
    let mut numbers = Numbers::new();
    let mut cores = [0; 1024];
    for place in 0..1024u32 {
        cores[place as usize] = place;
    }
    let mut shard: Shard<Toy> = Shard::new(rt.alloc(), 1, TableKey::known());
    for _ in 0..2u8 {
        let mut plain = Plain::empty();
        numbers.shuffle(&mut cores);
        let mut holds = enter_each(&rt, rt.alloc(), &mut shard, &cores, &mut plain);
        numbers.shuffle_holds(&mut holds);
        leave_each(&rt, &mut shard, holds, &mut plain);
    }
}

/// Cores at the ends of words, of halves and of all.
const FEW: [u32; 8] = [0, 1, 63, 64, 511, 512, 1022, 1023];

/// Enters a core of the few, also one that is in, or releases one of up to four holds.
fn step<R: Abort>(
    rt: &R,
    alloc: Global,
    shard: &mut Shard<Toy>,
    numbers: &mut Numbers,
    holds: &mut Vec<Hold<Toy>>,
    plain: &mut Plain,
) {
    if numbers.below(4) < holds.len() {
        let place = numbers.below(holds.len());
        leave(shard, holds.swap_remove(place), plain);
    } else {
        let core = FEW[numbers.below(8)];
        enter(rt, alloc, shard, core, holds, plain);
    }
}

#[test]
fn few_cores_come_and_go(rt: HostRuntime) {
    let mut numbers = Numbers::new();
    let mut shard: Shard<Toy> = Shard::new(rt.alloc(), 1, TableKey::known());
    let mut plain = Plain::empty();
    let mut holds = Vec::new(rt.alloc());
    for turn in 0..500u16 {
        step(
            &rt,
            rt.alloc(),
            &mut shard,
            &mut numbers,
            &mut holds,
            &mut plain,
        );
        assert!(rt; plain.is_in(&shard), "after turn {turn}");
    }
    leave_each(&rt, &mut shard, holds, &mut plain);
}
