//! Names and paths in the text of a problem. Contracts see the values, not the references.
ghost use Rattle.std.specs.Prelude.{◌≡◌};

use nugwier_layouts::escape::Escaped;
use std::fmt;
use std::marker::Model;

/// A name or a path, which is told as `Escaped`.
#[derive(Debug, Drop)]
pub struct Quoted<'a> {
    text: Escaped<'a>,
}

impl<'a> Model for Quoted<'a> {
    ghost use Rattle.std.specs.Prelude.{ℕ, List};

    ghost Value = { List ℕ };

    ghost view = { λ quoted. quoted.text.0.now };
}

impl<'a> Quoted<'a> {
    pub fn new(text: &'a [u8]) -> Quoted<'a>
        ensures { result ≡ text.now }
    {
        Quoted {
            text: Escaped(text),
        }
    }

    /// The same name or path once more.
    pub fn again(&self) -> Quoted<'a>
        ensures { result ≡ self.now }
    {
        Quoted { text: self.text }
    }
}

impl fmt::Display for Quoted<'_> {
    ghost use Rattle.nugwier_report.specs.Problems.{quoted};

    ghost output = { quoted };

    fn fmt<W: fmt::Write>(&self, f: &mut fmt::Formatter<W>) -> fmt::Result {
        let text = self.text;
        write!(f, "{text}")
    }
}
