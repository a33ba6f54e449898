//! Two cores pass a byte: core 1 reads it too early, which is a race, and then again after core 0 has released and it has acquired.
#![tactic(auto)]

ghost use Rattle.std.specs.Prelude.{◌≡◌};
ghost use Rattle.message_passing.specs.Studies.{bus_study, message_study, buffer_study};

use anyhow::anyhow;
use bench::{Answer, Bench, Request};
use mesi::Mesi;
use neat::Neat;
use protocol::{Protocol, Step};
use races::Outcome;
use report::{ended_line, step_line};
use std::io::Write;
use store_buffer::StoreBuffer;

/// The address that the byte is passed at.
const BOX: u8 = 10;

/// Makes one study and prints the line of each step and of the counts.
fn show<P: Protocol + Drop>(
    rt: &HostRuntime,
    title: &str,
    protocol: P,
    steps: &[Step],
) -> anyhow::Result<()> {
    let mut bench = Bench::new(protocol);
    let requests = [Request::Run {
        steps,
        room: steps.len(),
    }];
    let mut answers = [Answer::Found(None); 1];
    let mut outcomes = [Outcome::Waits; 32];
    bench
        .study(&requests, &mut answers, &mut outcomes)
        .map_err(|_| anyhow!("the study is too long"))?;
    rt.println(title)?;
    for (step, outcome) in steps.iter().zip(outcomes.iter()) {
        rt.stdout().write_all(&step_line(*step, *outcome))?;
    }
    rt.stdout()
        .write_all(&ended_line(bench.ended(), bench.first_race()))?;
    Ok(())
}

/// The study where no call waits.
fn on_the_bus() -> [Step; 5]
    ensures { result ≡ bus_study }
{
    [
        Step::Store {
            core: 0,
            address: BOX,
            byte: 0x41,
        },
        Step::Load {
            core: 1,
            address: BOX,
        },
        Step::Release { core: 0 },
        Step::Acquire { core: 1 },
        Step::Load {
            core: 1,
            address: BOX,
        },
    ]
}

/// The study under Neat: each message is moved where it stands. Line 1 of core 0 has place 1, its Close place 8; core 1 has 10 and 17.
fn by_messages() -> [Step; 16]
    ensures { result ≡ message_study }
{
    [
        Step::Store {
            core: 0,
            address: BOX,
            byte: 0x41,
        },
        Step::Move { place: 1 },
        Step::Move { place: 1 },
        Step::Load {
            core: 1,
            address: BOX,
        },
        Step::Move { place: 10 },
        Step::Move { place: 10 },
        Step::Release { core: 0 },
        Step::Move { place: 8 },
        Step::Move { place: 1 },
        Step::Move { place: 8 },
        Step::Acquire { core: 1 },
        Step::Move { place: 17 },
        Step::Move { place: 17 },
        Step::Load {
            core: 1,
            address: BOX,
        },
        Step::Move { place: 10 },
        Step::Move { place: 10 },
    ]
}

/// The study under buffered Neat: the store ends at once, and goes below when core 0 releases.
fn through_the_buffer() -> [Step; 16]
    ensures { result ≡ buffer_study }
{
    [
        Step::Store {
            core: 0,
            address: BOX,
            byte: 0x41,
        },
        Step::Load {
            core: 1,
            address: BOX,
        },
        Step::Move { place: 10 },
        Step::Move { place: 10 },
        Step::Release { core: 0 },
        Step::Move { place: 1 },
        Step::Move { place: 1 },
        Step::Move { place: 8 },
        Step::Move { place: 1 },
        Step::Move { place: 8 },
        Step::Acquire { core: 1 },
        Step::Move { place: 17 },
        Step::Move { place: 17 },
        Step::Load {
            core: 1,
            address: BOX,
        },
        Step::Move { place: 10 },
        Step::Move { place: 10 },
    ]
}

fn show_all(rt: &HostRuntime) -> anyhow::Result<()> {
    // Four calls and no table of them, since each protocol is a type of its own.
    show(rt, "bus MESI", Mesi::new(), &on_the_bus())?;
    show(rt, "Neat", Neat::new(), &by_messages())?;
    show(
        rt,
        "buffered MESI",
        StoreBuffer::new(Mesi::new()),
        &on_the_bus(),
    )?;
    show(
        rt,
        "buffered Neat",
        StoreBuffer::new(Neat::new()),
        &through_the_buffer(),
    )
}

fn main(rt: HostRuntime) -> anyhow::Result<()> {
    show_all(&rt)
}
