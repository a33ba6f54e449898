//! How fast the library makes the study on standard input: thousands of steps a second. Without an argument it makes the study once each
//! way and says how many steps that are.
#![tactic(auto)]

use anyhow::anyhow;
use bench::Bench;
use mesi::Mesi;
use neat::Neat;
use protocol::{Protocol, Step};
use races::Outcome;
use std::env;
use std::io::Read;
use std::str::FromStr;
use std::time::Instant;
use store_buffer::StoreBuffer;
use study_file::{Code, MOST_BYTES, read};
use study_run::{MOST_PRINTED, run_file};

/// How a study is made: its steps as one run; each of its core calls and then a settling; or the whole file, from its bytes to its report.
#[derive(Clone, Copy, PartialEq, Eq, Debug)]
enum Way {
    Run,
    Settle,
    File,
}

/// A word that asks for no way.
#[derive(Clone, Copy, PartialEq, Eq, Debug)]
struct NoWay;

/// The shortest time that is measured.
const SHORTEST: u128 = 300_000_000;

/// The most rounds that are made.
const ROUNDS: u32 = 10_000_000;

impl FromStr for Way {
    type Err = NoWay;

    fn from_str(word: &str) -> Result<Way, NoWay> {
        match word {
            "run" => Ok(Way::Run),
            "settle" => Ok(Way::Settle),
            "file" => Ok(Way::File),
            _ => Err(NoWay),
        }
    }
}

/// Makes the steps as one run, and answers how many those are.
fn run<P: Protocol>(
    bench: &mut Bench<P>,
    steps: &[Step],
    outcomes: &mut [Outcome],
) -> anyhow::Result<usize> {
    bench.set_up();
    bench
        .run(steps, outcomes)
        .map_err(|_| anyhow!("the study does not fit"))?;
    Ok(steps.len())
}

/// Makes each step and then a settling, and answers how many steps and moves that were.
fn settle<P: Protocol>(bench: &mut Bench<P>, steps: &[Step], outcomes: &mut [Outcome]) -> usize {
    bench.set_up();
    let mut made: usize = 0;
    for step in steps {
        let _ = bench.step(*step);
        let (moves, _) = bench.settle(outcomes);
        made = made.saturating_add(1).saturating_add(moves);
    }
    made
}

/// Thousands of steps a second.
fn thousands(steps: u64, nanoseconds: u128) -> u128 {
    u128::from(steps)
        .saturating_mul(1_000_000)
        .checked_div(nanoseconds)
        .unwrap_or(0)
}

/// Makes a study again and again, and answers thousands of steps a second. The closure makes it once, and answers how many steps it has.
fn timed<F: FnMut() -> anyhow::Result<usize>>(rt: &HostRuntime, mut make: F) -> anyhow::Result<u128>
    requires { F.IsAlwaysCallable make }
{
    let mut made: u64 = 0;
    let mut taken = 0;
    let start = Instant::now(rt)?;
    for _ in 0..ROUNDS {
        made = made.saturating_add(make()? as u64);
        taken = start.elapsed(rt)?.as_nanos();
        if taken >= SHORTEST {
            break;
        }
    }
    Ok(thousands(made, taken))
}

/// The way that the last word asks for that asks for one.
fn way_asked(rt: &HostRuntime) -> anyhow::Result<Option<Way>> {
    Ok(
        env::args(rt)?
            .filter_map(|word| word.as_str().parse().ok())
            .last(),
    )
}

/// Makes a study over a protocol and prints how fast that was, or, where no way is asked for, how many steps it has each way.
fn make<P: Protocol + Drop>(
    rt: &HostRuntime,
    protocol: P,
    file: &[u8],
    steps: &[Step],
    way: Option<Way>,
) -> anyhow::Result<()> {
    let mut bench = Bench::new(protocol);
    // A whole file is run into a page, and has no list of outcomes.
    let room = if way == Some(Way::File) {
        0
    } else {
        steps.len()
    };
    let mut outcomes = vec![in rt.alloc(); Outcome::Waits; room]?;
    let speed = match way {
        Some(Way::Run) => timed(rt, || run(&mut bench, steps, &mut outcomes))?,
        Some(Way::Settle) => timed(rt, || Ok(settle(&mut bench, steps, &mut outcomes)))?,
        Some(Way::File) => {
            let mut page = vec![in rt.alloc(); 0u8; MOST_PRINTED]?;
            timed(rt, || {
                run_file(rt.alloc(), file, &mut page).map_err(|_| anyhow!("the file has a fault"))?;
                Ok(steps.len())
            })?
        }
        None => {
            let ran = run(&mut bench, steps, &mut outcomes)?;
            let settled = settle(&mut bench, steps, &mut outcomes);
            println!(rt; "{ran} steps as a run, {settled} with settlings")?;
            return Ok(());
        }
    };
    println!(rt; "{speed}")?;
    Ok(())
}

fn report(rt: &HostRuntime) -> anyhow::Result<()> {
    // The input has a byte of room past what is read: reading asks for no memory.
    let mut input = Vec::with_capacity(rt.alloc(), usize::from(MOST_BYTES) + 1)?;
    rt.stdin()
        .take(u64::from(MOST_BYTES))
        .read_to_end(&mut input)?;
    let file = input.as_slice();
    let plan = read(rt.alloc(), file).map_err(|_| anyhow!("the file has a fault"))?;
    let steps = plan.steps.as_slice();
    let way = way_asked(rt)?;
    // One arm for each, since each protocol is a type of its own.
    match plan.code {
        Code::Neat => make(rt, Neat::new(), file, steps, way),
        Code::Mesi => make(rt, Mesi::new(), file, steps, way),
        Code::BufferedNeat => make(rt, StoreBuffer::new(Neat::new()), file, steps, way),
        Code::BufferedMesi => make(rt, StoreBuffer::new(Mesi::new()), file, steps, way),
    }
}

fn main(rt: HostRuntime) -> anyhow::Result<()> {
    report(&rt)
}
