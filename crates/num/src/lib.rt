// Numbers of two, four and eight bytes at a place, the low byte first, and the sign of an INT32. There is none where a byte of it is missing, whatever
// the place is.
#![tactic(auto)]

ghost use Rattle.std.specs.Prelude.{◌+◌, ◌≤◌, ◌≡◌, ◌↔◌, ◌<◌};
ghost use Rattle.format.specs.Numbers.{u16_at, u32_at, u64_at, negative};
ghost use Rattle.num.specs.Read.{bytes_at};

// The N bytes at a place.
fn bytes_at<const N: usize>(s: &[u8], at: usize) -> Option<[u8; N]>
    ensures { result ≡ bytes_at N s.now at }
{
    fields::part_at(s, at, N)?.try_into().ok()
}

#[tactic(auto, using(crate::specs::Read::u16_short))]
pub fn u16_at(s: &[u8], at: usize) -> Option<(u16, usize)>
    ensures { result ≡ u16_at s.now at }
{
    let two = bytes_at(s, at)?;
    Some((u16::from_le_bytes(two), at + 2))
}

pub fn u32_at(s: &[u8], at: usize) -> Option<(u32, usize)>
    ensures { result ≡ u32_at s.now at }
{
    let four = bytes_at(s, at)?;
    Some((u32::from_le_bytes(four), at + 4))
}

pub fn u64_at(s: &[u8], at: usize) -> Option<(u64, usize)>
    ensures { result ≡ u64_at s.now at }
{
    let eight = bytes_at(s, at)?;
    Some((u64::from_le_bytes(eight), at + 8))
}

// The sign of an INT32, by its unsigned bits.
pub fn is_negative(n: u32) -> bool
    ensures { result ≡ negative n }
{
    n >= 2147483648
}
