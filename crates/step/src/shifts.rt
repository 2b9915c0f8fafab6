// SHIFTXA, SHIFTXB: the numbers.
ghost use Rattle.std.specs.Prelude.{◌≡◌, cond, ℕ, ◌+◌, ◌-◌, ◌%◌, ◌≤◌, ◌<◌, eqb, length, get_or};
ghost use Rattle.cells.specs.Layout.{column_count, row_start};
ghost use Rattle.cells.specs.Cells.{over, between};
ghost use Rattle.control.specs.Halves.{Choice, joined};
ghost use Rattle.step.specs.Shifts.{shift_a, shift_b};
ghost use Rattle.step.specs.Inside.{inside_a, inside_b};

use control::Core;
use word::ShiftB;

// One column to the left, from the places `gap` further on; `end` at column 15. By index: before a place is written, one further on in the same
// file is read.
fn shift_left(lo: usize, hi: usize, gap: usize, end: u32, file: &mut [u32])
    requires { (hi % column_count ≡ 0) × (lo ≤ hi) × (hi + gap ≤ length file.old) }
    ensures { file.new
        ≡ over (between lo hi) (λ p. cond (eqb (p % column_count) 15) end (get_or file.old (p + gap + 1) 0)) file.old }
{
    for p in lo..hi {
        if p % cells::COLUMNS == 15 {
            file[p] = end;
        } else {
            file[p] = file[p + gap + 1];
        }
    }
}

// One column to the right, from the places `gap` further on; 0 at column 0. The number to store is held from the turn before.
fn shift_right(lo: usize, hi: usize, gap: usize, file: &mut [u32])
    requires { (lo % column_count ≡ 0) × (lo ≤ hi) × (hi + gap ≤ length file.old) }
    ensures { file.new
        ≡ over (between lo hi) (λ p. cond (eqb (p % column_count) 0) 0 (get_or file.old (p + gap - 1) 0)) file.old }
{
    let mut held = 0;
    for p in lo..hi {
        let next = file[p + gap];
        file[p] = unless_first(p, held);
        held = next;
    }
}

// 0 at column 0, and else the number.
fn unless_first(p: usize, x: u32) -> u32
    ensures { result ≡ cond (eqb (p % column_count) 0) 0 x }
{
    if p % cells::COLUMNS == 0 {
        return 0;
    }
    x
}

// How far on the rows from the last SrcA row stand.
fn gap_to(last: u8) -> usize
    ensures { (result ≡ row_start last) × (result < 4096) }
{
    cells::row_start(last as u32)
}

// The address slots are any, here and below.
pub fn shift_a(k: Core, mode: u32, srca: &mut [u32])
    ensures { (s : ℕ → Choice) → srca.new
        ≡ cond (inside_a (joined k s) (length srca.old)) (shift_a (joined k s) mode srca.old) srca.old }
{
    let rows = rules::shifts::shifted_a(k);
    let lo = cells::row_start(rows.first);
    let hi = lo + cells::row_start(rows.count);
    let gap = gap_to(k.last);
    if srca.len() < hi + gap {
        return;
    }
    if mode == 2 {
        shift_right(lo, hi, gap, srca);
    } else {
        shift_left(lo, hi, gap, 0, srca);
    }
}

pub fn shift_b(k: Core, thread: u8, f: ShiftB, srcb: &mut [u32])
    ensures { (s : ℕ → Choice) → srcb.new
        ≡ cond (inside_b (joined k s) thread f (length srcb.old)) (shift_b (joined k s) thread f srcb.old) srcb.old }
{
    let lo = cells::row_start(rules::shifts::shifted_b(k, thread, f));
    let hi = lo + cells::COLUMNS;
    if srcb.len() < hi {
        return;
    }
    if f.zero {
        shift_left(lo, hi, 0, 0, srcb);
    } else {
        let first = srcb[lo];
        shift_left(lo, hi, 0, first, srcb);
    }
}
