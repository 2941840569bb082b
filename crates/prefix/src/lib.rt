// The length prefix of a text: reading it, its length, and writing it.
#![tactic(auto)]

ghost use Rattle.std.specs.Prelude.{◌≡◌, ◌+◌, ◌≤◌, ◌<◌, ◌%◌, ◌^◌, length, Ok};
ghost use Rattle.format.specs.Bytes.{laid, Written};
ghost use Rattle.format.specs.Prefix.{prefix_in, later_least, prefix_at, onto, groups_of, prefix_bytes};
ghost use Rattle.prefix.specs.Laws.{Below};

use format::{Refusal, Setting};

// ---- reading

// A last group.
fn last_group(b: u8, next: usize) -> Result<(u32, usize), Refusal>
    ensures { result ≡ Ok (b, next) }
{
    Ok((b as u32, next))
}

// A group that more follow, with what those say.
fn onto_group(b: u8, rest: Result<(u32, usize), Refusal>) -> Result<(u32, usize), Refusal>
    requires { Below 16777216 rest }
    ensures { result ≡ onto (b % 128) rest }
{
    let (n, next) = rest?;
    Ok((((b % 128) as u32) + 128 * n, next))
}

// The groups from `at`: at most `k` bytes may follow the first, which is at least `least` if it is the last; a later last one is at
// least `later`.
fn groups(s: &[u8], at: usize, k: u8, least: u8, later: u8) -> Result<(u32, usize), Refusal>
    requires k_bound { k ≤ 4 }
    requires least_bound { least ≤ 1 }
    requires later_bound { later ≤ 1 }
    ensures { result ≡ prefix_in k least later s.now at }
{
    if s.len() <= at {
        return Err(Refusal::CutShort);
    }
    let b = s[at];
    if b < least {
        return Err(Refusal::BadLength);
    }
    if k == 0 {
        if 8 <= b {
            return Err(Refusal::BadLength);
        }
        return last_group(b, at + 1);
    }
    if b < 128 {
        return last_group(b, at + 1);
    }
    onto_group(b, groups(s, at + 1, k - 1, later, later))
}

// The smallest last group in a later byte.
fn later_least(setting: Setting) -> u8
    ensures { result ≡ later_least setting }
{
    match setting {
        Setting::Strict => 1,
        Setting::Lenient => 0,
    }
}

// The length prefix at a place. A prefix that the stream ends in is cut short, unless a byte before the end already shows that
// its length is bad.
pub fn prefix_at(s: &[u8], at: usize, setting: Setting) -> Result<(u32, usize), Refusal>
    ensures { result ≡ prefix_at setting s.now at }
{
    if at < s.len() {
        let b = s[at];
        if b < 128 {
            return last_group(b, at + 1);
        }
    }
    let r = groups(s, at, 4, 0, later_least(setting));
    r
}

// ---- writing

// How many bytes the prefix of n takes: one for each seven bits up to the highest one bit, and one for 0.
pub fn prefix_len(n: u32) -> usize
    ensures { result ≡ length (prefix_bytes n) }
{
    if n == 0 {
        return 1;
    }
    ((32 - u32::leading_zeros(n) + 6) / 7) as usize
}

// The groups of n, of which at most k follow the first, at the front of `out`.
fn put_groups(out: &mut [u8], n: u32, k: u8)
    requires n_bound { n < 128 ^ (k + 1) }
    requires n_in_bounds { length (groups_of k n) ≤ length out.old }
    ensures { out.new ≡ laid (groups_of k n) out.old }
{
    if n < 128 {
        out[0] = n as u8;
        return;
    }
    out[0] = (128 + n % 128) as u8;
    put_groups(&mut out[1..], n / 128, k - 1)
}

// The prefix of n at the front of `out`, or nothing where it does not fit; the answer is its length either way.
pub fn put_prefix(out: &mut [u8], n: u32) -> usize
    ensures { Written (prefix_bytes n) out.old out.new result }
{
    let len = prefix_len(n);
    if out.len() < len {
        return len;
    }
    put_groups(out, n, 4);
    len
}
