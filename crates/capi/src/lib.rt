// The C interface: the pre-check, the job run and the single step under plain names, each answer packed into one number (include/vintrazzola.h).
#![tactic(auto)]

mod packing;

ghost use Rattle.std.specs.Prelude.{◌≡◌};
ghost use Rattle.cells.specs.State.{state};
ghost use Rattle.numbers.specs.Record.{record_of};
ghost use Rattle.step.specs.Step.{state_of, step_answer};
ghost use Rattle.precheck.specs.Check.{precheck_answer};
ghost use Rattle.run.specs.Run.{run_of, run_answer};
ghost use Rattle.capi.specs.Packed.{packed};
ghost use Rattle.capi.specs.Step.{thread_byte, numbers_after};

use packing::{pack, pack_refusal};

// Threads, as a caller counts them.
const THREADS: u32 = cells::THREADS as u32;

#[unsafe(no_mangle)]
pub extern "C" fn vintrazzola_precheck(job: &[u8]) -> u64
    ensures { result ≡ packed (precheck_answer job.now) }
{
    pack(precheck::precheck(job))
}

#[unsafe(no_mangle)]
pub extern "C" fn vintrazzola_run(
    job: &[u8],
    srca: &mut [u32],
    srcb: &mut [u32],
    dst: &mut [u32],
    registers: &mut [u32],
) -> u64
    ensures { (result ≡ packed (run_answer job.now (state srca.old srcb.old dst.old registers.old)))
        × (state srca.new srcb.new dst.new registers.new
        ≡ (run_of job.now (state srca.old srcb.old dst.old registers.old)).state) }
{
    pack(run::run(job, srca, srcb, dst, registers))
}

// The thread in a byte: any thread out of range becomes the first of these.
fn thread_byte(thread: u32) -> u8
    ensures { result ≡ thread_byte thread }
{
    if thread < THREADS {
        return thread as u8;
    }
    cells::THREADS
}

#[unsafe(no_mangle)]
pub extern "C" fn vintrazzola_step(
    numbers: &mut [u32],
    thread: u32,
    word: u32,
    srca: &mut [u32],
    srcb: &mut [u32],
    dst: &mut [u32],
    registers: &mut [u32],
) -> u64
    ensures { (result ≡ packed (step_answer (record_of numbers.old) thread word (state srca.old srcb.old dst.old registers.old)))
        × (state srca.new srcb.new dst.new registers.new
        ≡ state_of (record_of numbers.old) thread word (state srca.old srcb.old dst.old registers.old))
        × (numbers.new ≡ numbers_after numbers.old thread word (state srca.old srcb.old dst.old registers.old)) }
{
    let before = numbers::read(numbers);
    let stepped = step::step(
        before,
        thread_byte(thread),
        word,
        srca,
        srcb,
        dst,
        registers,
    );
    match stepped {
        Ok(after) => {
            numbers::write_but_slots(after, numbers);
            0
        }
        Err(stopped) => pack_refusal(stopped.refusal.at(0)),
    }
}
