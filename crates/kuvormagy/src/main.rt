//! Reads a study file from standard input and prints its report, or the line of its fault.
#![tactic(auto)]

ghost use Rattle.kuvormagy.specs.Text.{Says};

use anyhow::anyhow;
use printing::fault_line;
use std::alloc::Global;
use std::io::{Read, Write};
use std::process::ExitCode;
use study_file::{Failure, MOST_BYTES};
use study_run::{MOST_PRINTED, run_file};

/// Why there is no report.
#[derive(Clone, Copy, PartialEq, Eq, Debug)]
pub enum NoReport {
    /// The file has a fault: the line that is printed for it.
    FaultLine([u8; 29]),
    /// There is no memory for the steps.
    OutOfMemory,
}

impl From<Failure> for NoReport {
    ghost use Rattle.kuvormagy.specs.Text.{no_report};
    ghost use Rattle.std.specs.Prelude.{◌≡◌};

    ghost from_gives = { λ f r. r ≡ no_report f };

    fn from(failure: Failure) -> NoReport {
        match failure {
            Failure::Fault(fault) => NoReport::FaultLine(fault_line(fault)),
            Failure::OutOfMemory => NoReport::OutOfMemory,
        }
    }
}

/// Runs a file. The report fills the start of the page, and its length is answered.
fn text_of(heap: Global, file: &[u8], page: &mut [u8]) -> Result<usize, NoReport>
    ensures { Says file.now page.old result page.new }
{
    Ok(run_file(heap, file, page)?)
}

/// Prints the report of the file on standard input, or the line of its fault, which ends with status 1.
fn print_study(rt: &HostRuntime) -> anyhow::Result<ExitCode> {
    // One byte more than a file may have: no more is read.
    let most_read = usize::from(MOST_BYTES) + 1;
    // Both buffers are made before anything is read, and the file's has a byte of room past that: reading asks for no memory.
    let mut file = Vec::with_capacity(rt.alloc(), most_read + 1)?;
    let mut page = vec![in rt.alloc(); 0u8; MOST_PRINTED]?;
    rt.stdin().take(most_read as u64).read_to_end(&mut file)?;
    match text_of(rt.alloc(), file.as_slice(), &mut page) {
        Ok(length) => {
            page.truncate(length);
            rt.stdout().write_all(page.as_slice())?;
            Ok(ExitCode::SUCCESS)
        }
        Err(NoReport::FaultLine(line)) => {
            rt.stdout().write_all(&line)?;
            Ok(ExitCode::FAILURE)
        }
        Err(NoReport::OutOfMemory) => Err(anyhow!("out of memory")),
    }
}

/// A fault says nothing on standard error; what else goes wrong is said there.
fn main(rt: HostRuntime) -> anyhow::Result<ExitCode> {
    print_study(&rt)
}
