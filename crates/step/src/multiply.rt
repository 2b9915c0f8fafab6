// MVMUL, DOTPV, GAPOOL: the numbers.
ghost use Rattle.std.specs.Prelude.{◌≡◌, cond, ℕ, length};
ghost use Rattle.control.specs.Halves.{Choice, joined};
ghost use Rattle.product.specs.Product.{multiplied, fits};
ghost use Rattle.step.specs.Multiply.{product_of};

use control::Core;
use product::Product;
use word::Multiply;

// The address slots are any, here and below.
fn product_of(k: Core, thread: u8, m: Multiply) -> Product
    ensures { (s : ℕ → Choice) → result ≡ product_of (joined k s) thread m }
{
    let x = control::own_at(k, thread);
    let height = m.height;
    let settings = k.settings;
    let width = control::width_of(settings);
    Product {
        width,
        format: k.settings.format,
        phase: rules::multiply::phase_of(x),
        a: cells::bank_row(k.a.matrix, rules::multiply::row_a(x)),
        b: cells::bank_row(k.b.matrix, rules::multiply::row_b(x)),
        dst: rules::multiply::row_dst(k.settings.base, x, height, m.dst),
        rows: rules::multiply::height_rows(height),
    }
}

pub fn multiply(k: Core, thread: u8, m: Multiply, srca: &[u32], srcb: &[u32], dst: &mut [u32])
    ensures { (s : ℕ → Choice) → dst.new
        ≡ cond (fits (product_of (joined k s) thread m) (length srca.now) (length srcb.now) (length dst.old))
        (multiplied (product_of (joined k s) thread m) srca.now srcb.now dst.old) dst.old }
{
    product::multiply(product_of(k, thread, m), srca, srcb, dst);
}
