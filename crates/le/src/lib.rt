#![tactic(auto)]
// Little-endian numbers inside a slice of bytes.
ghost use Rattle.std.specs.Prelude.{◌≡◌, ◌+◌, ◌≤◌, ◌<◌, length, set};
ghost use Rattle.le.specs.Le.{u16_at, u32_at, u64_at, set_u16, set_u32, set_u64};

#[tactic(auto, unfolding(crate::specs::Le::u16_at))]
pub fn get_u16(s: &[u8], at: usize) -> u32
    requires { at + 2 ≤ length s.now }
    ensures { (result ≡ u16_at s.now at) × (result < 65536) }
{
    u32::from(u16::from_le_bytes([s[at], s[at + 1]]))
}

#[tactic(auto, unfolding(crate::specs::Le::u32_at))]
pub fn get_u32(s: &[u8], at: usize) -> u32
    requires { at + 4 ≤ length s.now }
    ensures { result ≡ u32_at s.now at }
{
    u32::from_le_bytes([s[at], s[at + 1], s[at + 2], s[at + 3]])
}

#[tactic(auto, unfolding(crate::specs::Le::u64_at, crate::specs::Le::u32_at))]
pub fn get_u64(s: &[u8], at: usize) -> u64
    requires { at + 8 ≤ length s.now }
    ensures { result ≡ u64_at s.now at }
{
    u64::from_le_bytes([
        s[at],
        s[at + 1],
        s[at + 2],
        s[at + 3],
        s[at + 4],
        s[at + 5],
        s[at + 6],
        s[at + 7],
    ])
}

pub fn put_u8(s: &mut [u8], at: usize, v: u8)
    requires { at + 1 ≤ length s.old }
    ensures { s.new ≡ set s.old at v }
{
    s[at] = v;
}

#[tactic(auto, unfolding(crate::specs::Le::set_u16))]
pub fn put_u16(s: &mut [u8], at: usize, v: u32)
    requires { at + 2 ≤ length s.old }
    ensures { s.new ≡ set_u16 s.old at v }
{
    let [low, high, _, _] = v.to_le_bytes();
    s[at] = low;
    s[at + 1] = high;
}

#[tactic(auto, unfolding(crate::specs::Le::set_u32))]
pub fn put_u32(s: &mut [u8], at: usize, v: u32)
    requires { at + 4 ≤ length s.old }
    ensures { s.new ≡ set_u32 s.old at v }
{
    let bytes = v.to_le_bytes();
    s[at] = bytes[0];
    s[at + 1] = bytes[1];
    s[at + 2] = bytes[2];
    s[at + 3] = bytes[3];
}

#[tactic(auto, unfolding(crate::specs::Le::set_u64))]
pub fn put_u64(s: &mut [u8], at: usize, v: u64)
    requires { at + 8 ≤ length s.old }
    ensures { s.new ≡ set_u64 s.old at v }
{
    put_u32(s, at, (v % 4294967296) as u32);
    put_u32(s, at + 4, (v / 4294967296) as u32);
}
