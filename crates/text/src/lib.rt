#![tactic(auto)]
// Numbers and texts put into a lent output, and the room that a line asks for.
ghost use Rattle.std.specs.Prelude.{◌≡◌, ◌+◌, ◌≤◌, length};
ghost use Rattle.std.proofs.lemmas.List.Edits.{sets};
ghost use Rattle.text.specs.Text.{decimal64, field64, parted, columns, put, put_of, has_room_lem};
ghost use Rattle.text.specs.Decimal.{last_digits};

// How many digits a number has.
fn digits(n: u64) -> usize
    ensures { (decimal64 n ≡ last_digits result n) × (result ≤ 20) }
{
    if n < 10 {
        return 1;
    }
    n.ilog10() as usize + 1
}

// Stores the last k digits of a number from `at` on, the last of them first.
fn put_digits(out: &mut [u8], at: usize, k: usize, n: u64)
    requires { at + k ≤ length out.old }
    ensures { out.new ≡ sets out.old at (last_digits k n) }
{
    let mut rest = n;
    for i in (0..k).rev() {
        out[at + i] = (48 + rest % 10) as u8;
        rest /= 10;
    }
}

// Each function below that puts something answers the position behind it.

// Puts a number in decimal.
pub fn put_number(out: &mut [u8], at: usize, n: u64) -> usize
    requires { at + length (decimal64 n) ≤ length out.old }
    ensures { (put out.new result ≡ put_of out.old at (decimal64 n)) × (result ≡ at + length (decimal64 n)) }
{
    let k = digits(n);
    put_digits(out, at, k, n);
    at + k
}

// Puts a number in decimal and the byte that follows it.
pub fn put_field(out: &mut [u8], at: usize, n: u64, follows: u8) -> usize
    requires { at + length (field64 n follows) ≤ length out.old }
    ensures { (put out.new result ≡ put_of out.old at (field64 n follows)) × (result ≡ at + length (field64 n follows)) }
{
    let e = put_number(out, at, n);
    le::put_u8(out, e, follows);
    e + 1
}

// Puts a text.
pub fn put_text(out: &mut [u8], at: usize, text: &[u8]) -> usize
    requires { at + length text.now ≤ length out.old }
    ensures { (put out.new result ≡ put_of out.old at text.now) × (result ≡ at + length text.now) }
{
    let end = at + text.len();
    out[at..end].copy_from_slice(text);
    end
}

// The byte that stands for one of a row of words.
#[tactic(auto, unfolding(crate::specs::Text::parted))]
fn parted(sep: u8, b: u8) -> u8
    ensures { result ≡ parted sep b }
{
    if b == 32 {
        return sep;
    }
    b
}

// Puts a row of words with `sep` for each space.
pub fn put_columns(out: &mut [u8], at: usize, text: &[u8], sep: u8) -> usize
    requires { at + length text.now ≤ length out.old }
    ensures { (put out.new result ≡ put_of out.old at (columns sep text.now)) × (result ≡ at + length text.now) }
{
    for i in 0..text.len() {
        out[at + i] = parted(sep, text[i]);
    }
    at + text.len()
}

// Whether a line of up to `longest` bytes has room from `at` on in an output of this length.
#[tactic(auto, unfolding(crate::specs::Text::has_room_lem))]
pub fn room(longest: usize, len: usize, at: usize) -> bool
    ensures { result ≡ has_room_lem longest len at }
{
    if len < at {
        return false;
    }
    if len - at < longest {
        return false;
    }
    true
}
