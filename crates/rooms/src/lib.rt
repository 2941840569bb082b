// The rooms that programs lend for lists, class books, tables and copies.
#![tactic(auto)]

ghost use Rattle.std.specs.Prelude.{◌≡◌, length};

// A room for N values, which holds one value in every place. The `ensures` gives the length without its number, however large that is.
pub fn room<T: Copy, const N: usize>(value: T) -> [T; N]
    ensures { N ≡ length result }
{
    [value; N]
}
