// Lists in words.
ghost use Rattle.std.specs.Iterator.{IsFinite};

use std::fmt;

// Writes the items of a list, with a sign between each two.
pub(crate) fn joined<W: fmt::Write, I: Iterator>(
    f: &mut fmt::Formatter<W>,
    mut items: I,
    sign: &str,
) -> fmt::Result
where
    I: Drop,
    I::Item: fmt::Display + Drop,
    requires can { I.can_next items }
    requires ends { IsFinite (I.remaining items) }
{
    let Some(first) = items.next() else {
        return Ok(());
    };
    write!(f, "{first}")?;
    for item in items {
        write!(f, "{sign}{item}")?;
    }
    Ok(())
}
