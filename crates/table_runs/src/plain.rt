use step_core::MemoMeaning;

/// A meaning of memos for tests: each key is valid, and stands together with the number 1.
#[derive(Drop)]
pub struct Plain;

impl MemoMeaning for Plain {
    ghost use Rattle.table_runs.specs.Plain.{plain, plain_laws};

    ghost meaning = { plain };

    ghost laws = { plain_laws };
}
