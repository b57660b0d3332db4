ghost use Rattle.std.specs.Prelude.{Some};
ghost use Rattle.flowreport.specs.Texts.{line_of};

use crate::flow::Answer;
use std::fmt;

// The lines that an answer prints.
#[derive(Clone, Copy)]
pub(crate) struct Lines(pub(crate) Answer);

impl fmt::Display for Lines {
    ghost output = { λ lines. Some (line_of lines.0) };

    fn fmt<W: fmt::Write>(&self, f: &mut fmt::Formatter<W>) -> fmt::Result {
        match self.0 {
            Ok(None) => Ok(()),
            Ok(Some(counts)) => write!(f, "report {} {}\nend\n", counts.n, counts.t),
            Err(refusal) => write!(f, "refused {refusal}\n"),
        }
    }
}
