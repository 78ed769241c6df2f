// Text and decimal numbers, written into lent bytes.
#![tactic(auto)]

ghost use Rattle.std.specs.Prelude.{◌++◌};
ghost use Rattle.page.specs.Text.{decimal};
ghost use Rattle.page.specs.Form.{filled};
ghost use Rattle.page.specs.Put.{Room, Put};

// The text s goes to place `at`: the place after it.
#[tactic(auto, using(crate::proofs::Put::copied))]
pub fn put_text(out: &mut [u8], at: usize, s: &[u8]) -> usize
    requires { Room out.old at s.now }
    ensures { Put out.old at s.now out.new result }
{
    let end = at + s.len();
    out[at..end].copy_from_slice(s);
    end
}

// The number n goes to place `at` in decimals: the place after it.
#[tactic(auto, using(crate::proofs::Decimal::library))]
pub fn put_number(out: &mut [u8], at: usize, n: u64) -> usize
    requires { Room out.old at (decimal n) }
    ensures { Put out.old at (decimal n) out.new result }
{
    let mut digits = itoa::Buffer::new();
    put_text(out, at, digits.format(n).as_bytes())
}

// A label goes to place `at`, and the number n in decimals behind it: the place after them.
pub fn put_field(out: &mut [u8], at: usize, label: &[u8], n: u64) -> usize
    requires { Room out.old at (label.now ++ decimal n) }
    ensures { Put out.old at (label.now ++ decimal n) out.new result }
{
    let i = put_text(out, at, label);
    put_number(out, i, n)
}

// What stands in a form for a number.
const MARK: u8 = b'#';

// A form goes to place `at`, with the numbers in place of its marks: the place after it.
pub fn put_form(out: &mut [u8], at: usize, form: &[u8], numbers: &[u64]) -> usize
    requires { Room out.old at (filled form.now numbers.now) }
    ensures { Put out.old at (filled form.now numbers.now) out.new result }
{
    let mut end = at;
    let mut left = numbers.iter();
    for &byte in form {
        end = if byte == MARK {
            put_number(out, end, left.next().copied().unwrap_or(0))
        } else {
            put_text(out, end, &[byte])
        };
    }
    end
}
