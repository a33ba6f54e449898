//! A study, printed into a buffer from its start.

ghost use Rattle.std.specs.Prelude.{◌≡◌, ◌+◌, ◌*◌, min};
ghost use Rattle.races.specs.Log.{Log};
ghost use Rattle.bench.specs.Benches.{InStudy, moment_of};
ghost use Rattle.report.specs.Page.{buffer_of, Puts};
ghost use Rattle.printing.specs.Page.{image_digits, StepsPrinted, Prints};

use bench::{Bench, Cause, Fault, Layer};
use protocol::{Protocol, Step};
use report::{Page, byte_digits, ended_line, step_line};

/// Takes each step and prints its line.
fn print_steps<P: Protocol>(bench: &mut Bench<P>, steps: &[Step], page: &mut Page<'_>)
    ensures { StepsPrinted P.machine (P.state bench.old.protocol) bench.old.races steps.now page.old page.new (P.state bench.new.protocol) bench.new.races }
{
    for step in steps {
        let outcome = bench.step(*step);
        page.put(&step_line(*step, outcome));
    }
}

/// Prints the digits of the image, by rising address.
fn print_image<P: Protocol>(bench: &Bench<P>, page: &mut Page<'_>)
    ensures same_buffer { buffer_of page.new ≡ buffer_of page.old }
    ensures image { (log : Log) → InStudy P.machine P.state bench.now log → Puts page.old page.new (image_digits (moment_of P.machine P.state bench.now).view.home 64) }
{
    for address in 0..64u8 {
        // no address below 64 is refused in a study, so the 0 is never printed
        let byte = bench.image(address).unwrap_or(0);
        page.put(&byte_digits(byte));
    }
}

/// How many bytes a report of so many steps has; the largest number where that is past it.
fn report_length(steps: usize) -> usize
    ensures { result ≡ min (163 + 14 * steps) 18446744073709551615 }
{
    steps.saturating_mul(14).saturating_add(163)
}

/// Makes a study from a clear on, and prints its report into the start of the buffer. Answers its length.
pub fn print_study<P: Protocol + Drop>(
    protocol: P,
    heading: [u8; 11],
    steps: &[Step],
    out: &mut [u8],
) -> Result<usize, Fault>
    ensures { Prints P.machine heading steps.now out.old result out.new }
{
    if out.len() < report_length(steps.len()) {
        return Err(Layer::Caller.fault(Cause::OutputTooShort, 0));
    }
    let mut bench = Bench::new(protocol);
    let mut page = Page::new(out);
    page.put(&heading);
    print_steps(&mut bench, steps, &mut page);
    page.put(&ended_line(bench.ended(), bench.first_race()));
    print_image(&bench, &mut page);
    page.put(b"\n");
    Ok(page.filled())
}
