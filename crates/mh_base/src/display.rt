//! The text of a list of numbers.

ghost use Rattle.std.specs.Prelude.{◌++◌, codes};
ghost use Rattle.std.specs.Fmt.{WritesOnOk, decimal};
ghost use Rattle.std.specs.List.{flat_map};
ghost use Rattle.mh_base.specs.Display.{numbers_text};

use std::fmt;

/// Numbers, written with commas between them, as `0,1,5`, or as `-` if there are none.
#[derive(Clone, Copy, Debug)]
pub struct Numbers<'a> {
    /// The numbers.
    pub numbers: &'a [u32],
}

impl<'a> fmt::Display for Numbers<'a> {
    ghost use Rattle.std.specs.Prelude.{Some};

    ghost output = { λ n. Some (numbers_text n.numbers.now) };

    fn fmt<W: fmt::Write>(&self, f: &mut fmt::Formatter<W>) -> fmt::Result {
        let [first, others @ ..] = self.numbers else {
            return write!(f, "-");
        };
        write!(f, "{first}")?;
        write_others(others, f)
    }
}

// Writes a comma and the number, for each number.
fn write_others<W: fmt::Write>(numbers: &[u32], f: &mut fmt::Formatter<W>) -> fmt::Result
    ensures text { WritesOnOk W.write_str_gives f.old result
        (flat_map (λ n. codes "," ++ decimal n) numbers.now) f.new }
{
    for number in numbers {
        write!(f, ",{number}")?;
    }
    Ok(())
}
