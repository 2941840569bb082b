// Two parts of one stream, compared.
#![tactic(auto)]

ghost use Rattle.std.specs.Prelude.{◌≡◌};
ghost use Rattle.format.specs.Bytes.{same_part};

// Whether the n bytes at a and the n bytes at b are the same; false where either part runs past the end, also a part with itself.
pub fn same_part(s: &[u8], a: usize, b: usize, n: usize) -> bool
    ensures { result ≡ same_part s.now a b n }
{
    if s.len() < a || s.len() - a < n || s.len() < b || s.len() - b < n {
        return false;
    }
    &s[a..a + n] == &s[b..b + n]
}
