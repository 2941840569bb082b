// Primitive values as the tidy copy has them: a Decimal after the shortest prefix of its length, any other as it stands in the stream.
#![tactic(auto)]

ghost use Rattle.put.specs.Put.{Filled};
ghost use Rattle.pieces.specs.Copy.{value_out, values_out};

// The value from p to e.
pub fn put_value(out: &mut [u8], s: &[u8], prefixed: bool, p: usize, e: usize) -> usize
    ensures { Filled (value_out s.now prefixed p e) out.old out.new result }
{
    if prefixed {
        return put::put_text(out, s, p);
    }
    put::put_part(out, s, p, e)
}

// As many values as n, from p to e.
pub fn put_values(out: &mut [u8], s: &[u8], prefixed: bool, n: u32, p: usize, e: usize) -> usize
    ensures { Filled (values_out s.now prefixed n p e) out.old out.new result }
{
    if prefixed {
        return put::put_texts(out, s, n, p);
    }
    put::put_part(out, s, p, e)
}
