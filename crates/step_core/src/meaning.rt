/// What memos mean: which keys are valid for a text and a log, and which keys and ids stand
/// together for a text, a log and cells. Nothing of it runs.
pub trait MemoMeaning {
    ghost use Rattle.step_core.specs.Meaning.{Meaning, Laws};

    ghost meaning: { Meaning };

    ghost laws: { Laws meaning };
}
