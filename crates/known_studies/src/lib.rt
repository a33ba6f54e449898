//! The studies with known ends: as facts of the rules, by one computed check over their list.
#![tactic(auto)]

ghost use Rattle.std.specs.Prelude.{◌≡◌, true, false};
ghost use Rattle.known_studies.specs.Shown.{all_known};
ghost use Rattle.bench.specs.Computed.{state_after, table_after};
ghost use Rattle.mesi_rules.specs.Bus.{start};
ghost use Rattle.races.specs.Table.{start as none_ended};
ghost use Rattle.known_studies.specs.Cases.{cases, mesi_step, handover};
ghost use Rattle.known_studies.specs.Ends.{all_end, neat_due, mesi_copies_after, reaches_by_rules};
ghost use Rattle.known_studies.specs.Generated.{neat_dues, mesi_copies, reaches};
ghost use Rattle.protocol.specs.declared.steps.Ended.TheVariants.{Loaded};
ghost use Rattle.races.specs.declared.outcomes.Outcome.TheVariants.{Ended as HasEnded};

use bench::Bench;
use mesi::Mesi;
use protocol::Protocol;
use races::Outcome;

/// Every known study comes out under the rules as it is known. Due under Neat, the states of copies under bus MESI and the reach of
/// buffers are also what an independent program found for the studies that it drew.
pub fn studies_hold() -> bool
    ensures facts { all_known cases ≡ true }
    ensures dues { all_end neat_due neat_dues ≡ true }
    ensures copies { all_end mesi_copies_after mesi_copies ≡ true }
    ensures reaches { reaches_by_rules ≡ reaches }
    ensures value { result ≡ true }
{
    true
}

/// Core 0 hands a byte over to core 1 under bus MESI. That core 1 loads that byte, without a race, is shown by the guarantee of every
/// study, and not by the rules of MESI.
pub fn hand_over(bench: &mut Bench<Mesi>) -> Outcome
    ensures answer { result ≡ HasEnded (Loaded 1 10 65) false }
    ensures protocol { bench.new.protocol ≡ state_after mesi_step start handover }
    ensures races { bench.new.races ≡ table_after mesi_step start none_ended handover }
{
    bench.set_up();
    let _ = bench.store(0, 10, 65);
    let _ = bench.release(0);
    let _ = bench.acquire(1);
    bench.load(1, 10)
}

#[cfg(test)]
mod tests {
    use bench::{Bench, Cause, Layer};
    use mesi::Mesi;
    use neat::Neat;
    use protocol::{Protocol, Refusal, Step};
    use races::Outcome;
    use report::step_line;
    use std::process::Abort;
    use store_buffer::StoreBuffer;

    // One step of a study, and the line that it must print.
    #[derive(Clone, Copy)]
    struct Shown {
        step: Step,
        line: [u8; 14],
    }

    fn prints<P: Protocol + Drop>(rt: &impl Abort, protocol: P, study: &[Shown]) {
        let mut bench = Bench::new(protocol);
        for shown in study {
            let outcome = bench.step(shown.step);
            assert_eq!(rt; step_line(shown.step, outcome), shown.line);
        }
    }

    #[test]
    fn mesi_passes_a_byte(rt: HostRuntime) {
        let study = [
            Shown {
                step: Step::Store {
                    core: 0,
                    address: 10,
                    byte: 0x41,
                },
                line: *b"E 0 S 41 . 00\n",
            },
            Shown {
                step: Step::Load {
                    core: 1,
                    address: 10,
                },
                line: *b"E 1 L 41 ! 00\n",
            },
            Shown {
                step: Step::Release { core: 0 },
                line: *b"E 0 P -- . 00\n",
            },
            Shown {
                step: Step::Acquire { core: 1 },
                line: *b"E 1 A -- . 00\n",
            },
            Shown {
                step: Step::Load {
                    core: 1,
                    address: 10,
                },
                line: *b"E 1 L 41 . 00\n",
            },
            Shown {
                step: Step::Evict { core: 0, line: 1 },
                line: *b"E 0 X -- . 00\n",
            },
            Shown {
                step: Step::Move { place: 0 },
                line: *b"R - - -- . 04\n",
            },
            Shown {
                step: Step::Load {
                    core: 0,
                    address: 64,
                },
                line: *b"R 0 L -- . 02\n",
            },
            Shown {
                step: Step::Load {
                    core: 8,
                    address: 64,
                },
                line: *b"R - L -- . 01\n",
            },
        ];
        prints(&rt, Mesi::new(), &study);
    }

    #[test]
    fn a_run_without_room_changes_nothing(rt: HostRuntime) {
        let mut bench = Bench::new(Mesi::new());
        let steps = [Step::Acquire { core: 0 }; 3];
        let mut outcomes = [Outcome::Moved; 2];
        assert_eq!(rt;
            bench.run(&steps, &mut outcomes),
            Err(Layer::Caller.fault(Cause::TooFewOutcomes, 0))
        );
        assert_eq!(rt; outcomes, [Outcome::Moved; 2]);
        assert_eq!(rt; bench.ended(), 0);
    }

    #[test]
    fn settling_needs_no_room_to_answer(rt: HostRuntime) {
        let mut bench = Bench::new(Mesi::new());
        let mut outcomes = [Outcome::Waits; 0];
        assert_eq!(rt; bench.settle(&mut outcomes), (0, false));
    }

    #[test]
    fn images_are_refused_from_64_on(rt: HostRuntime) {
        let bench = Bench::new(Mesi::new());
        assert_eq!(rt; bench.image(63), Ok(0));
        assert_eq!(rt; bench.image(64), Err(Refusal::NoSuchAddress));
    }

    // Past 65,535 ended calls the numbers stay, and races are still marked.
    #[test]
    fn numbers_stop_at_65535(rt: HostRuntime) {
        let mut bench = Bench::new(Mesi::new());
        let _ = bench.store(0, 10, 0x41);
        for _ in 0..70_000u32 {
            let _ = bench.load(0, 10);
        }
        assert_eq!(rt; bench.ended(), 65_535);
        assert_eq!(rt; bench.first_race(), 0);
        let outcome = bench.load(1, 10);
        assert_eq!(rt;
            step_line(
                Step::Load {
                    core: 1,
                    address: 10,
                },
                outcome,
            ),
            *b"E 1 L 41 ! 00\n"
        );
        assert_eq!(rt; bench.first_race(), 65_535);
    }

    // The store, release, acquire and load of the known handover, and the racing load before it.
    #[test]
    fn neat_passes_a_byte(rt: HostRuntime) {
        let study = [
            Shown {
                step: Step::Store {
                    core: 0,
                    address: 10,
                    byte: 0x41,
                },
                line: *b"W 0 S -- . 00\n",
            },
            Shown {
                step: Step::Load {
                    core: 0,
                    address: 3,
                },
                line: *b"R 0 L -- . 03\n",
            },
            Shown {
                step: Step::Move { place: 1 },
                line: *b"M - - -- . 00\n",
            },
            Shown {
                step: Step::Move { place: 1 },
                line: *b"M 0 S 41 . 00\n",
            },
            Shown {
                step: Step::Move { place: 1 },
                line: *b"R - - -- . 04\n",
            },
            Shown {
                step: Step::Release { core: 0 },
                line: *b"W 0 P -- . 00\n",
            },
            Shown {
                step: Step::Move { place: 8 },
                line: *b"M - - -- . 00\n",
            },
            Shown {
                step: Step::Move { place: 1 },
                line: *b"M - - -- . 00\n",
            },
            Shown {
                step: Step::Move { place: 8 },
                line: *b"M 0 P -- . 00\n",
            },
            Shown {
                step: Step::Acquire { core: 1 },
                line: *b"W 1 A -- . 00\n",
            },
            Shown {
                step: Step::Move { place: 17 },
                line: *b"M - - -- . 00\n",
            },
            Shown {
                step: Step::Move { place: 17 },
                line: *b"M 1 A -- . 00\n",
            },
            Shown {
                step: Step::Load {
                    core: 1,
                    address: 10,
                },
                line: *b"W 1 L -- . 00\n",
            },
            Shown {
                step: Step::Move { place: 10 },
                line: *b"M - - -- . 00\n",
            },
            Shown {
                step: Step::Move { place: 10 },
                line: *b"M 1 L 41 . 00\n",
            },
        ];
        prints(&rt, Neat::new(), &study);
    }

    #[test]
    fn neat_puts_and_fetches_again(rt: HostRuntime) {
        let study = [
            Shown {
                step: Step::Store {
                    core: 0,
                    address: 10,
                    byte: 0x41,
                },
                line: *b"W 0 S -- . 00\n",
            },
            Shown {
                step: Step::Move { place: 1 },
                line: *b"M - - -- . 00\n",
            },
            Shown {
                step: Step::Move { place: 1 },
                line: *b"M 0 S 41 . 00\n",
            },
            Shown {
                step: Step::Evict { core: 0, line: 1 },
                line: *b"E 0 X -- . 00\n",
            },
            Shown {
                step: Step::Load {
                    core: 0,
                    address: 10,
                },
                line: *b"W 0 L -- . 00\n",
            },
            Shown {
                step: Step::Move { place: 1 },
                line: *b"M - - -- . 00\n",
            },
            Shown {
                step: Step::Move { place: 1 },
                line: *b"M - - -- . 00\n",
            },
            Shown {
                step: Step::Move { place: 1 },
                line: *b"M - - -- . 00\n",
            },
            Shown {
                step: Step::Move { place: 1 },
                line: *b"M 0 L 41 . 00\n",
            },
        ];
        prints(&rt, Neat::new(), &study);
    }

    // Four stores stay in the buffer; the fifth sends the oldest home.
    #[test]
    fn a_fifth_store_sends_the_oldest_below(rt: HostRuntime) {
        let mut bench = Bench::new(StoreBuffer::new(Mesi::new()));
        for address in 0..4u8 {
            let _ = bench.store(0, address, 0x41);
        }
        for address in 0..4u8 {
            assert_eq!(rt; bench.image(address), Ok(0));
        }
        let _ = bench.store(0, 4, 0x41);
        assert_eq!(rt; bench.image(0), Ok(0x41));
        for address in 1..5u8 {
            assert_eq!(rt; bench.image(address), Ok(0));
        }
    }

    // The fifth store waits for the oldest below; the move that ends that one names the store above, with its byte.
    #[test]
    fn a_move_names_the_call_above(rt: HostRuntime) {
        let study = [
            Shown {
                step: Step::Store {
                    core: 0,
                    address: 0,
                    byte: 0x41,
                },
                line: *b"E 0 S 41 . 00\n",
            },
            Shown {
                step: Step::Store {
                    core: 0,
                    address: 8,
                    byte: 0x42,
                },
                line: *b"E 0 S 42 . 00\n",
            },
            Shown {
                step: Step::Store {
                    core: 0,
                    address: 16,
                    byte: 0x43,
                },
                line: *b"E 0 S 43 . 00\n",
            },
            Shown {
                step: Step::Store {
                    core: 0,
                    address: 24,
                    byte: 0x44,
                },
                line: *b"E 0 S 44 . 00\n",
            },
            Shown {
                step: Step::Store {
                    core: 0,
                    address: 32,
                    byte: 0x45,
                },
                line: *b"W 0 S -- . 00\n",
            },
            Shown {
                step: Step::Move { place: 0 },
                line: *b"M - - -- . 00\n",
            },
            Shown {
                step: Step::Move { place: 0 },
                line: *b"M 0 S 45 . 00\n",
            },
            Shown {
                step: Step::Load {
                    core: 0,
                    address: 32,
                },
                line: *b"E 0 L 45 . 00\n",
            },
        ];
        prints(&rt, StoreBuffer::new(Neat::new()), &study);
    }

    // Room for more than four times reach under each protocol here; the largest is 95, of a buffer over Neat.
    fn hands_over<P: Protocol + Drop>(rt: &impl Abort, protocol: P) {
        let mut outcomes = [Outcome::Waits; 400];
        let mut bench = Bench::new(protocol);
        let byte = bench.hand_over(0, 1, 10, 0x41, &mut outcomes);
        assert_eq!(rt; byte, Some(0x41), "the byte was not handed over");
        let none = bench.hand_over(0, 8, 10, 0x41, &mut outcomes);
        assert_eq!(rt; none, None, "there is no core 8");
    }

    #[test]
    fn a_byte_is_handed_over(rt: HostRuntime) {
        hands_over(&rt, Mesi::new());
        hands_over(&rt, Neat::new());
        hands_over(&rt, StoreBuffer::new(Mesi::new()));
        hands_over(&rt, StoreBuffer::new(Neat::new()));
    }

    // A drain that waits in its middle, through two buffers: settling ends it, and the image has both bytes.
    #[test]
    fn two_buffers_drain_through_neat(rt: HostRuntime) {
        let mut bench = Bench::new(StoreBuffer::new(StoreBuffer::new(Neat::new())));
        let _ = bench.store(0, 10, 0x41);
        let _ = bench.store(0, 20, 0x42);
        assert_eq!(rt; bench.release(0), Outcome::Waits);
        let mut outcomes = [Outcome::Waits; 32];
        assert_eq!(rt; bench.settle(&mut outcomes), (8, false));
        assert_eq!(rt; bench.ended(), 3);
        assert_eq!(rt; bench.image(10), Ok(0x41));
        assert_eq!(rt; bench.image(20), Ok(0x42));
    }
}
