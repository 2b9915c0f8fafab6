// ZEROSRC: the numbers.
ghost use Rattle.std.specs.Prelude.{◌≡◌, ℕ};
ghost use Rattle.control.specs.Halves.{Choice, joined};
ghost use Rattle.cells.specs.Cells.{over_rows};
ghost use Rattle.rules.specs.ZeroSrc.{filled_a, filled_b};
ghost use Rattle.step.specs.ZeroSrc.{fill_a};

use cells::Width;
use control::Core;
use word::ZeroSrc;

fn fill_a(z: ZeroSrc) -> u32
    ensures { result ≡ fill_a z }
{
    if z.write & (z.value != 0) {
        return 0x7FFFF;
    }
    0
}

// The address slots are any.
pub fn zero_src(k: Core, z: ZeroSrc, srca: &mut [u32], srcb: &mut [u32])
    ensures { (s : ℕ → Choice) → (srca.new ≡ over_rows (filled_a (joined k s) z) (λ i. fill_a z) srca.old)
        × (srcb.new ≡ over_rows (filled_b (joined k s) z) (λ i. 0) srcb.old) }
{
    let rows_a = rules::zero_src::filled_if(z.a, k.a, z);
    cells::fill_rows(Width::Bits32, rows_a, fill_a(z), srca);
    let rows_b = rules::zero_src::filled_if(z.b, k.b, z);
    cells::fill_rows(Width::Bits32, rows_b, 0, srcb);
}
