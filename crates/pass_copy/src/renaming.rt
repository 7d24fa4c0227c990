ghost use Rattle.std.specs.Prelude.{◌≡◌, ◌+◌, IfOk};
ghost use Rattle.pass_copy.specs.Renamed.{relabel, relabels};
ghost use Rattle.pass_copy.specs.Renaming.{renamed};
ghost use Rattle.pass_copy.specs.declared.renaming.Span.{Span};

use arith_word::{Label, List};
use std::alloc::{AllocError, Global};

/// That many labels from `from` on, which become those from `to` on.
#[derive(Clone, Copy, Debug, PartialEq, Eq)]
pub struct Span {
    pub from: Label,
    pub count: u32,
    pub to: Label,
}

/// The label so many labels behind one.
fn label_ahead(l: Label, labels: u32) -> Result<Label, AllocError>
    ensures { IfOk result (λ made. made.0 ≡ labels + l.0) }
{
    if labels > u32::MAX - l.0 {
        return Err(AllocError);
    }
    Ok(Label(labels + l.0))
}

/// A renaming of labels: by the first span that has one, and a label in no span stays.
#[derive(Debug, Drop)]
pub struct Renaming {
    pub spans: Vec<Span>,
}

impl Renaming {
    /// What a label gets.
    ///
    /// # Errors
    ///
    /// Where this is past the last label.
    pub fn label(&self, l: Label) -> Result<Label, AllocError>
        ensures { IfOk result (λ made. made ≡ relabel (renamed self.now.spans.items) l) }
    {
        for span in self.spans.as_slice() {
            if span.from.0 <= l.0 && l.0 - span.from.0 < span.count {
                return label_ahead(span.to, l.0 - span.from.0);
            }
        }
        Ok(l)
    }

    /// What labels get.
    pub fn labels(&self, alloc: Global, labels: &[Label]) -> Result<List<Label>, AllocError>
        ensures { IfOk result (λ made. made ≡ relabels (renamed self.now.spans.items) labels.now) }
    {
        let mut made = Vec::with_capacity(alloc, labels.len())?;
        for l in labels {
            made.push(self.label(*l)?)?;
        }
        Ok(List::from_vec(made))
    }
}
