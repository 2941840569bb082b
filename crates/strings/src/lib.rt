// The prefixed string at a place: its length prefix, then its text.
#![tactic(auto)]

ghost use Rattle.std.specs.Prelude.{◌≡◌};
ghost use Rattle.format.specs.Text.{string_at};

use format::{Refusal, Setting, Span};

// Where the text begins and ends. A bad prefix goes before missing text, and missing text before bad text.
pub fn string_at(s: &[u8], at: usize, setting: Setting) -> Result<Span, Refusal>
    ensures { result ≡ string_at setting s.now at }
{
    let (n, next) = prefix::prefix_at(s, at, setting)?;
    let end = text::text_at(s, next, n as usize)?;
    Ok(Span {
        from: next,
        to: end,
    })
}
