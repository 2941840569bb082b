// Do two parts lists say the same? Both are tidied, and two lists say the same exactly when their tidy copies are equal, byte for byte.
#![tactic(auto)]

ghost use Rattle.std.specs.Prelude.{◌≡◌};
ghost use Rattle.sameness.specs.Sameness.{ComparePromise};
ghost use Rattle.sameness.specs.Laws.{Against};
ghost use Rattle.format.specs.Terms.{terms};

use format::{Setting, Uncompared};

// The first list has this copy: the second list is tidied, and the copies are compared.
fn against(
    copy: &[u8],
    b: &[u8],
    book: &[u8],
    table: &mut [u32],
    second: &mut [u8],
    setting: Setting,
) -> Result<bool, Uncompared>
    ensures { Against (terms setting book.now) copy.now b.now table.old second.old table.new second.new result }
{
    let n = tidy::tidy(b, book, table, second, setting).map_err(Uncompared::Second)?;
    Ok(copy == &second[..n])
}

// Compares what the lists in `a` and `b` say, each read with its own book and setting. The tidy copies go to the front of `first` and `second`; the one table serves both readings.
pub fn say_the_same(
    a: &[u8],
    a_book: &[u8],
    b: &[u8],
    b_book: &[u8],
    table: &mut [u32],
    first: &mut [u8],
    second: &mut [u8],
    a_setting: Setting,
    b_setting: Setting,
) -> Result<bool, Uncompared>
    ensures { ComparePromise (terms a_setting a_book.now) (terms b_setting b_book.now) a.now b.now table.old first.old second.old result table.new first.new second.new }
{
    let m = tidy::tidy(a, a_book, table, first, a_setting).map_err(Uncompared::First)?;
    against(&first[..m], b, b_book, table, second, b_setting)
}
