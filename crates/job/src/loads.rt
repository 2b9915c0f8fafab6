// Loads of rows: the numbers of a payload go into a file of numbers.
ghost use Rattle.std.specs.Prelude.{◌≡◌, ◌+◌, ◌-◌, ◌*◌, ◌≤◌, length};
ghost use Rattle.cells.specs.Cells.{between};
ghost use Rattle.cells.specs.Places.{over_at};
ghost use Rattle.cells.specs.Parts.{place_in, over_part};
ghost use Rattle.cells.specs.Layout.{span};
ghost use Rattle.job.specs.Loading.{value_from, loaded};

use crate::bytes::{bytes_left, number_at, read4};
use cells::{COLUMNS, Part, Span, Width};

// The places from `lo` on and before `hi` that lie in a part get the numbers of a payload, all of which stand inside it. Number 0 of the part
// stands at `base`.
fn load_part(part: Part, base: usize, payload: &[u8], lo: usize, hi: usize, file: &mut [u32])
    requires { (lo ≤ hi) × (base ≡ place_in part (length file.old) 0) × (4 * (hi - lo) ≤ length payload.now - 3) }
    ensures { file.new ≡ over_part part lo hi (value_from payload.now lo) file.old }
{
    let n = file.len();
    let start = cells::cut_in(part, n, lo);
    let end = cells::cut_in(part, n, hi);
    for i in start..end {
        let v = read4(payload, 3 + 4 * (base + i - lo));
        file[i] = cells::with_part(part, file[i], v);
    }
}

// The places from `lo` on and before `hi` get the numbers of a payload, all of which stand inside it.
fn load_places(width: Width, payload: &[u8], lo: usize, hi: usize, file: &mut [u32])
    requires { (lo ≤ hi) × (4 * (hi - lo) ≤ length payload.now - 3) }
    ensures { file.new ≡ over_at width (between lo hi) (value_from payload.now lo) file.old }
{
    match width {
        Width::Bits32 => load_part(Part::Whole, 0, payload, lo, hi, file),
        Width::Bits16 => {
            load_part(Part::Low, 0, payload, lo, hi, file);
            let n = file.len();
            load_part(Part::High, n, payload, lo, hi, file);
        }
    }
}

// Rows, counted from row `base` on, get the numbers of a load rows payload. A number past the end of the payload is 0; places past the end of the
// file are passed over.
pub fn load_rows(width: Width, payload: &[u8], base: u32, rows: Span, file: &mut [u32])
    ensures { file.new ≡ loaded width payload.now (span (base + rows.first) rows.count) file.old }
{
    let lo = (base as usize + rows.first as usize) * COLUMNS;
    let hi = lo + rows.count as usize * COLUMNS;
    let whole = bytes_left(payload, 3) / 4;
    if hi - lo <= whole {
        load_places(width, payload, lo, hi, file);
        return;
    }
    let mid = lo + whole;
    load_places(width, payload, lo, mid, file);
    // The next number may have its first bytes inside.
    cells::fill_places(width, mid, mid + 1, number_at(payload, 3 + 4 * whole), file);
    cells::fill_places(width, mid + 1, hi, 0, file);
}
