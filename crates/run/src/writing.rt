// What a load or zeroing writes to the lent numbers.
ghost use Rattle.std.specs.Prelude.{◌≡◌, List, ℕ};
ghost use Rattle.cells.specs.declared.Width.TheVariants as Width;
ghost use Rattle.cells.specs.Cells.{over, in_span};
ghost use Rattle.cells.specs.Layout.{one_register};
ghost use Rattle.cells.specs.State.{state, with_src_file, src_file};
ghost use Rattle.control.specs.Halves.{Choice, joined};
ghost use Rattle.job.specs.Kinds.{register_value};
ghost use Rattle.job.specs.Loading.{loaded};
ghost use Rattle.walk.specs.FieldRecord.{loaded_rows};
ghost use Rattle.run.specs.Perform.{written};

use cells::{File, Span, Width};
use control::Core;
use job::Write;

// Src loads go into the unpackers' bank. The other two files and the address slots are any.
fn load_src(payload: &[u8], k: Core, which: File, rows: Span, srca: &mut [u32], srcb: &mut [u32])
    ensures { (s : ℕ → Choice) (d r : List ℕ) → state srca.new srcb.new d r
        ≡ with_src_file (state srca.old srcb.old d r) which
        (loaded Width.Bits32 payload.now (loaded_rows (joined k s) which rows) (src_file (state srca.old srcb.old d r) which)) }
{
    let base = walk::bank_start(k, which);
    match which {
        File::A => job::load_rows(Width::Bits32, payload, base, rows, srca),
        File::B => job::load_rows(Width::Bits32, payload, base, rows, srcb),
    }
}

fn load_register(payload: &[u8], thread: u8, r: u8, registers: &mut [u32])
    ensures { registers.new ≡ over (in_span (one_register thread r)) (λ i. register_value payload.now) registers.old }
{
    let i = cells::register_at(thread, r) as usize;
    if registers.len() <= i {
        return;
    }
    registers[i] = job::register_value(payload);
}

// The address slots are any.
pub(crate) fn write(
    payload: &[u8],
    k: Core,
    what: Write,
    srca: &mut [u32],
    srcb: &mut [u32],
    dst: &mut [u32],
    registers: &mut [u32],
)
    ensures { (s : ℕ → Choice) → state srca.new srcb.new dst.new registers.new
        ≡ written payload.now (joined k s) what (state srca.old srcb.old dst.old registers.old) }
{
    match what {
        Write::LoadSrc { file, rows } => load_src(payload, k, file, rows, srca, srcb),
        Write::LoadDst { width, rows } => job::load_rows(width, payload, 0, rows, dst),
        Write::LoadRegister { thread, register } => load_register(
            payload, thread, register, registers,
        ),
        Write::ZeroRows { width, rows } => cells::fill_rows(width, rows, 0, dst),
    }
}
