ghost use Rattle.std.specs.Prelude.{◌≡◌};
ghost use Rattle.std.specs.List.{list_any};
ghost use Rattle.arith_word.specs.Labels.{item_of};
ghost use Rattle.item_uses.specs.Uses as spec;
ghost use Rattle.item_uses.specs.Marks.{with_mark, with_marks};
ghost use Rattle.arith_word.specs.declared.label.Label.{Label};

use arith_word::Label;

/// Whether the item of the label has its mark; arguments have none.
fn is_marked(marks: &[bool], label: Label) -> bool
    ensures { result ≡ spec.is_marked marks.now (item_of label.0) }
{
    let item = label.item();
    0 < item && item <= marks.len() && marks[item - 1]
}

/// Whether the item of one of the labels has its mark.
pub(crate) fn is_any_marked(marks: &[bool], labels: &[Label]) -> bool
    ensures { result ≡ list_any
        (λ (label : Label). spec.is_marked marks.now (item_of label.0)) labels.now }
{
    labels.iter().any(|label| is_marked(marks, *label))
}

/// Marks the item of the label, where it has a place in the list.
fn mark_one(marks: &mut [bool], label: Label)
    ensures { marks.new ≡ with_mark marks.old (item_of label.0) }
{
    let item = label.item();
    if 0 < item && item <= marks.len() {
        marks[item - 1] = true;
    }
}

/// Marks the item of each label.
pub(crate) fn mark_all(marks: &mut [bool], labels: &[Label])
    ensures { marks.new ≡ with_marks marks.old labels.now }
{
    for label in labels {
        mark_one(marks, *label);
    }
}
