// A bit cursor by value over bytes, most significant bit first: takes fields out of bytes, and puts fields into them.
#![tactic(auto)]

ghost use Rattle.std.specs.Prelude.{◌≡◌, ◌+◌, ◌*◌, ◌%◌, ◌^◌, ◌≤◌, ◌<◌, length, set};
ghost use Rattle.bits.specs.Bits.{byte_at, bits_at, room_of, fits, read_field};
ghost use Rattle.bits.specs.Put.{place_after, put_field};
ghost use Rattle.bits.specs.Window.{window_at, with_window, woven};
ghost use Rattle.bits.specs.View.{Views};

// Where the next field begins, counted in bits from the first bit.
#[derive(Clone, Copy)]
pub struct Cursor {
    pub at: usize,
}

// What stands at a cursor: a field's value and the cursor past it; or nothing, where the field begins or runs past the end.
// A field of more than 16 bits is never there.
pub type Taken = Option<(u16, Cursor)>;

// How many bits there are, counted up to 2 ^ 32.
pub fn room(s: &[u8]) -> usize
    ensures { result ≡ room_of s.now }
{
    if s.len() < 536870912 {
        8 * s.len()
    } else {
        4294967296
    }
}

// Whether a field has at most 16 bits and lies within the bytes.
fn has_room(s: &[u8], w: usize, at: usize) -> bool
    ensures { result ≡ fits s.now w at }
{
    let end = room(s);
    w <= 16 && w <= end && at <= end - w
}

// The byte at a place that is there.
fn byte(s: &[u8], i: usize) -> u64
    requires { i < length s.now }
    ensures { (result ≡ byte_at s.now i) × (result < 256) }
{
    u64::from(s[i])
}

// The byte at a place, 0 past the end.
fn byte_at(s: &[u8], i: usize) -> u64
    ensures { (result ≡ byte_at s.now i) × (result < 256) }
{
    s.get(i).map_or(0, |b| u64::from(*b))
}

// The three bytes from a place on, as one number.
fn window(s: &[u8], k: usize) -> u64
    requires { k < 2 ^ 32 }
    ensures { (result ≡ window_at s.now k) × (result < 2 ^ 24) }
{
    byte_at(s, k) * 65536 + byte_at(s, k + 1) * 256 + byte_at(s, k + 2)
}

// The four bytes from a place on, as one number. Of two such side by side the compiler makes one load, of
// `u64::from_be_bytes` eight.
fn half(s: &[u8], k: usize) -> u64
    requires { k + 4 ≤ length s.now }
    ensures { result ≡ bits_at s.now (8 * k) 32 }
{
    (byte(s, k) << 24) + (byte(s, k + 1) << 16) + (byte(s, k + 2) << 8) + byte(s, k + 3)
}

// The eight bytes from a place on, as one number.
fn word(s: &[u8], k: usize) -> u64
    requires { k + 8 ≤ length s.now }
    ensures { result ≡ bits_at s.now (8 * k) 64 }
{
    (half(s, k) << 32) + half(s, k + 4)
}

// The last eight bytes without those before a place, and zeros behind them.
fn last_word(s: &[u8], k: usize) -> u64
    requires { (8 ≤ length s.now) × (length s.now < k + 8) × (k < length s.now) }
    ensures { result ≡ bits_at s.now (8 * k) 64 }
{
    let end = s.len();
    word(s, end - 8) << (8 * (k + 8 - end))
}

// The n bytes from a place on, as one number, zeros past the end. Since it calls itself, the compiler leaves it out of line: it serves the
// last bytes of a file. As a loop with `inline(never)`, and `half` by `u32::from_be_bytes`, the program took 4 of 100 instructions more.
fn ending(s: &[u8], k: usize, n: usize) -> u64
    requires { (n ≤ 8) × (k ≤ 2 ^ 61) }
    ensures { result ≡ bits_at s.now (8 * k) (8 * n) }
{
    if n == 0 {
        return 0;
    }
    if n == 8 {
        if s.len() >= 8 {
            if k >= s.len() {
                return 0;
            }
            if k + 8 > s.len() {
                return last_word(s, k);
            }
        }
    }
    (ending(s, k, n - 1) << 8) + byte_at(s, k + n - 1)
}

// The 64 bits from a bit on, zeros past the end; the last eight may be others. That the word is tested as a whole keeps its load whole.
pub fn view(s: &[u8], at: usize) -> u64
    ensures { Views s.now at result }
{
    let k = at / 8;
    if k + 8 <= s.len() {
        let x = word(s, k);
        if x == 18446744073709551615 {
            return x;
        }
        return x << (at % 8);
    }
    ending(s, k, 8) << (at % 8)
}

// The low byte of x stored at a place, if there is one. Of a slice's `get_mut` a proof knows the length alone, and no element.
fn store(out: &mut [u8], i: usize, x: u64)
    ensures { out.new ≡ set out.old i (x % 256) }
{
    if i < out.len() {
        out[i] = (x % 256) as u8;
    }
}

// The three low bytes of x stored from a place on, as far as there are places.
fn store_window(out: &mut [u8], k: usize, x: u64)
    requires { k < 2 ^ 32 }
    ensures { out.new ≡ with_window out.old k x }
{
    store(out, k, x / 65536);
    store(out, k + 1, x / 256);
    store(out, k + 2, x);
}

// Three bytes with the w low bits of v put in at bit p, and zeros after them up to the next whole byte.
fn weave(x: u64, p: usize, w: usize, v: u16) -> u64
    requires { (x < 2 ^ 24) × (p < 8) × (w ≤ 16) }
    ensures { result ≡ woven x p w v }
{
    let head = ((x >> (24 - p)) << w) + (v as u64) % (1 << w);
    let rest = x % (1 << (24 - (p + w + 7) / 8 * 8));
    (head << (24 - p - w)) + rest
}

impl Cursor {
    // The field of w bits that begins here.
    pub fn take(self, w: usize, s: &[u8]) -> Taken
        ensures { result ≡ read_field s.now w self.at }
    {
        let at = self.at;
        if has_room(s, w, at) {
            let x = window(s, at / 8);
            let v = (x >> (24 - at % 8 - w)) % (1 << w);
            Some((v as u16, Cursor { at: at + w }))
        } else {
            None
        }
    }

    // The w low bits of v put in here, with zeros after them up to the next whole byte, and the cursor past them.
    // Where they do not fit, nothing is changed and the cursor stays.
    pub fn put(self, w: usize, v: u16, out: &mut [u8]) -> Cursor
        ensures { (result.at ≡ place_after out.old w self.at) × (out.new ≡ put_field out.old w v self.at) }
    {
        let at = self.at;
        if has_room(out, w, at) {
            let k = at / 8;
            let x = window(out, k);
            let y = weave(x, at % 8, w, v);
            store_window(out, k, y);
            Cursor { at: at + w }
        } else {
            self
        }
    }
}
