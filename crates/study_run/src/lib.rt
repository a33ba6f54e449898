//! Runs a study file: the report of the study that it asks for.
#![tactic(auto)]

ghost use Rattle.std.specs.Prelude.{◌≡◌};
ghost use Rattle.printing.specs.Page.{Prints};
ghost use Rattle.study_run.specs.Reports.{heading_of, plan_comes_to, machine_of, file_comes_to, ComesOut, IsStudy};

use bench::Fault;
use mesi::Mesi;
use neat::Neat;
use printing::print_study;
use protocol::Step;
use report::Page;
use std::alloc::Global;
use store_buffer::StoreBuffer;
use study_file::{Code, Failure, read};

/// A report of 4,096 steps has so many bytes, and no report has more.
pub const MOST_PRINTED: usize = 57507;

/// The line of the protocol's code, with its line end.
// Piece by piece, as `ended_line` of `report`: the reason stands there.
fn heading(code: Code) -> [u8; 11]
    ensures { result ≡ heading_of code }
{
    let mut line = [0; 11];
    let mut page = Page::new(&mut line);
    page.put(b"protocol ");
    page.put(&[b'0' + u8::from(code)]);
    page.put(b"\n");
    line
}

// The codes name four protocols, each a type of its own, and the study is made by one function over any of them. What chooses the type is
// this match: a trait or a closure in its place would be written four times, once for each type, and handed a value that a match chose.
// A trait with a generic method, with one use here and one in `speed`, would leave the match as it is, and a trait and two structs would
// come on top.

/// Makes the study under the protocol of the code, and prints its report into the start of the buffer.
fn print_plan(code: Code, steps: &[Step], out: &mut [u8]) -> Result<usize, Fault>
    ensures { Prints (machine_of code) (heading_of code) steps.now out.old result out.new }
{
    let heading = heading(code);
    match code {
        Code::Neat => print_study(Neat::new(), heading, steps, out),
        Code::Mesi => print_study(Mesi::new(), heading, steps, out),
        Code::BufferedNeat => print_study(StoreBuffer::new(Neat::new()), heading, steps, out),
        Code::BufferedMesi => print_study(StoreBuffer::new(Mesi::new()), heading, steps, out),
    }
}

/// Runs a study file. The report fills the start of the buffer, and its length is answered; a fault leaves the buffer as it was.
pub fn run_file(heap: Global, file: &[u8], out: &mut [u8]) -> Result<usize, Failure>
    ensures computed { ComesOut (file_comes_to file.now out.old) out.old result out.new }
    ensures study { IsStudy file.now out.old result out.new }
{
    let plan = read(heap, file)?;
    Ok(print_plan(plan.code, plan.steps.as_slice(), out)?)
}

#[cfg(test)]
mod tests {
    use super::run_file;
    use bench::{Cause, Fault, Layer};
    use std::process::Abort;
    use std::test::Fail;
    use study_file::Failure;

    // A byte that no report has.
    const POISON: u8 = 0xee;

    // The file has that fault, and leaves the buffer as it was.
    fn turned_down(
        rt: &(impl Abort + AllocGlobal),
        file: &[u8],
        room: usize,
        fault: Fault,
    ) -> Result<(), Fail> {
        let mut out = vec![in rt.alloc(); POISON; room]?;
        let answer = run_file(rt.alloc(), file, &mut out);
        assert_eq!(rt; answer, Err(Failure::Fault(fault)));
        for byte in out.as_slice() {
            assert_eq!(rt; *byte, POISON);
        }
        Ok(())
    }

    // The file of some acquires under bus MESI, and of some bytes after them.
    fn acquires(rt: &HostRuntime, steps: u16, tail: &[u8]) -> Result<Vec<u8>, Fail> {
        let mut file = [3u8, 0, 1, 0, 2].to_vec(rt.alloc())?;
        for _ in 0..steps {
            file.extend_from_slice(&[3, 0, 4, 0, 0])?;
        }
        file.extend_from_slice(tail)?;
        Ok(file)
    }

    #[test]
    fn five_records_print_their_report(rt: HostRuntime) -> Result<(), Fail> {
        let file = [
            3, 0, 1, 0, 2, 5, 0, 3, 0, 0, 10, 0x41, 4, 0, 2, 0, 1, 10, 4, 0, 6, 0, 0, 1, 3, 0, 7,
            0, 0,
        ];
        let text =
            b"protocol 2\nE 0 S 41 . 00\nE 1 L 41 ! 00\nE 0 X -- . 00\nR - - -- . 04\nended 00003 race 00002\n0000000000000000000041";
        let mut out = vec![in rt.alloc(); POISON; 300]?;
        assert_eq!(rt; run_file(rt.alloc(), &file, &mut out), Ok(219));
        assert_eq!(rt; out.as_slice().get(0..text.len()), Some(&text[0..]));
        assert_eq!(rt; out.as_slice().get(218).copied(), Some(b'\n'));
        assert_eq!(rt; out.as_slice().get(219).copied(), Some(POISON));
        Ok(())
    }

    #[test]
    fn faults_leave_the_buffer(rt: HostRuntime) -> Result<(), Fail> {
        turned_down(&rt, &[], 300, Layer::Plan.fault(Cause::ProtocolNotFirst, 0))?;
        turned_down(&rt, &[0], 300, Layer::Reader.fault(Cause::CutShort, 0))?;
        turned_down(&rt, &[1, 0], 300, Layer::Reader.fault(Cause::CutShort, 0))?;
        turned_down(
            &rt,
            &[0, 0],
            300,
            Layer::Reader.fault(Cause::WrongLength, 0),
        )?;
        turned_down(
            &rt,
            &[1, 0, 5],
            300,
            Layer::Reader.fault(Cause::WrongLength, 0),
        )?;
        turned_down(
            &rt,
            &[2, 0, 9, 0],
            300,
            Layer::Reader.fault(Cause::UnknownKind, 0),
        )?;
        turned_down(
            &rt,
            &[3, 0, 1, 0, 5],
            300,
            Layer::Plan.fault(Cause::UnknownCode, 0),
        )?;
        turned_down(
            &rt,
            &[3, 0, 1, 0, 2, 3, 0, 1, 0, 5],
            300,
            Layer::Plan.fault(Cause::ProtocolNotFirst, 5),
        )?;
        // the file's own fault comes first
        turned_down(&rt, &[0], 0, Layer::Reader.fault(Cause::CutShort, 0))?;
        turned_down(
            &rt,
            &[3, 0, 1, 0, 2],
            162,
            Layer::Caller.fault(Cause::OutputTooShort, 0),
        )
    }

    #[test]
    fn limits_are_exact(rt: HostRuntime) -> Result<(), Fail> {
        let most = acquires(&rt, 4096, &[])?;
        let mut out = vec![in rt.alloc(); POISON; 57507]?;
        assert_eq!(rt; run_file(rt.alloc(), most.as_slice(), &mut out), Ok(57507));
        let over = acquires(&rt, 4097, &[])?;
        turned_down(
            &rt,
            over.as_slice(),
            57521,
            Layer::Reader.fault(Cause::TooLong, 20485),
        )?;
        let later = acquires(&rt, 4096, &[3, 0, 1, 0, 9])?;
        turned_down(
            &rt,
            later.as_slice(),
            57507,
            Layer::Plan.fault(Cause::ProtocolNotFirst, 20485),
        )?;
        let full = vec![in rt.alloc(); 0u8; 32768]?;
        turned_down(
            &rt,
            full.as_slice(),
            0,
            Layer::Reader.fault(Cause::WrongLength, 0),
        )?;
        let past = vec![in rt.alloc(); 0u8; 32769]?;
        turned_down(
            &rt,
            past.as_slice(),
            0,
            Layer::Reader.fault(Cause::TooLong, 32768),
        )
    }
}
