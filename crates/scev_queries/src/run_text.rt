ghost use Rattle.std.specs.Prelude.{◌≡◌, [], ◌∷◌, ◌++◌, codes, map, slice_index_or, string_bytes, OnOk};
ghost use Rattle.scev_queries.specs.Answers.{names_of};
ghost use Rattle.scev_queries.specs.Passed.{behind_commas};
ghost use Rattle.scev_queries.specs.RunTexts.{calls_text, outcome_text, passed_text, results_text, trace_text, word_text};
ghost use Rattle.scf_eval.specs.States.{event_of, number_of, numbers, plain_outcome};

use arith_word::Word;
use mlir_ir::Func;
use scev_text::push_number;
use scf_eval::{Event, Outcome, Run};
use std::alloc::AllocError;

/// Adds a word in its signed reading; at one bit 0 or 1.
fn push_word(out: &mut String, word: &Word) -> Result<(), AllocError>
    ensures { OnOk result (string_bytes out.new
        ≡ string_bytes out.old ++ word_text (number_of word.now)) }
{
    push_number(out, word.w, word.v)
}

/// Adds words that are returned, each behind a blank.
fn push_results(out: &mut String, words: &[Word]) -> Result<(), AllocError>
    ensures { OnOk result (string_bytes out.new
        ≡ string_bytes out.old ++ results_text (numbers words.now)) }
{
    for word in words {
        write!(out, " ")?;
        push_word(out, word)?;
    }
    Ok(())
}

/// Adds how a run ends.
fn push_outcome(out: &mut String, outcome: &Outcome) -> Result<(), AllocError>
    ensures { OnOk result (string_bytes out.new
        ≡ string_bytes out.old ++ outcome_text (plain_outcome outcome.now)) }
{
    match outcome {
        Outcome::Ended(words) => {
            write!(out, "ended")?;
            push_results(out, words.as_slice())
        }
        Outcome::Trapped => write!(out, "trapped"),
        Outcome::Starved => write!(out, "starved"),
        Outcome::Cut => write!(out, "cut"),
    }
}

/// Adds words that are passed behind others, each behind a comma.
fn push_more(out: &mut String, words: &[Word]) -> Result<(), AllocError>
    ensures { OnOk result (string_bytes out.new
        ≡ string_bytes out.old ++ behind_commas (numbers words.now)) }
{
    for word in words {
        write!(out, ",")?;
        push_word(out, word)?;
    }
    Ok(())
}

/// Adds words that are passed, with commas between them.
fn push_passed(out: &mut String, words: &[Word]) -> Result<(), AllocError>
    ensures { OnOk result (string_bytes out.new
        ≡ string_bytes out.old ++ passed_text (numbers words.now)) }
{
    match words.split_first() {
        None => Ok(()),
        Some((first, more)) => {
            push_word(out, first)?;
            push_more(out, more)?;
            Ok(())
        }
    }
}

/// Adds the name of the function at that place; nothing where there is none.
fn push_name(out: &mut String, funcs: &[Func], at: usize) -> Result<(), AllocError>
    ensures { OnOk result (string_bytes out.new
        ≡ string_bytes out.old ++ slice_index_or (names_of funcs.now) at []) }
{
    if at < funcs.len() {
        let name = &funcs[at].name;
        write!(out, "{name}")
    } else {
        Ok(())
    }
}

/// Adds a call: the function that is called, and the words that are passed.
fn push_call(out: &mut String, funcs: &[Func], event: &Event) -> Result<(), AllocError>
    ensures { OnOk result (string_bytes out.new
        ≡ string_bytes out.old ++ calls_text (names_of funcs.now) (event_of event.now ∷ [])) }
{
    write!(out, " @")?;
    push_name(out, funcs, event.callee as usize)?;
    write!(out, "(")?;
    push_passed(out, event.args.as_slice())?;
    write!(out, ")")
}

/// Adds calls.
fn push_calls(out: &mut String, funcs: &[Func], events: &[Event]) -> Result<(), AllocError>
    ensures { OnOk result (string_bytes out.new
        ≡ string_bytes out.old ++ calls_text (names_of funcs.now) (map event_of events.now)) }
{
    for event in events {
        push_call(out, funcs, event)?;
    }
    Ok(())
}

/// Adds the calls of a run, where it makes any.
fn push_trace(out: &mut String, funcs: &[Func], events: &[Event]) -> Result<(), AllocError>
    ensures { OnOk result (string_bytes out.new
        ≡ string_bytes out.old ++ trace_text (names_of funcs.now) (map event_of events.now)) }
{
    if events.is_empty() {
        return Ok(());
    }
    write!(out, " ;")?;
    push_calls(out, funcs, events)
}

/// Adds a run of a function among these: how it ends, and its calls.
pub fn push_run(out: &mut String, funcs: &[Func], run: &Run) -> Result<(), AllocError>
    ensures { OnOk result (string_bytes out.new ≡ string_bytes out.old
        ++ (outcome_text (plain_outcome run.now.outcome)
        ++ trace_text (names_of funcs.now) (map event_of run.now.trace))) }
{
    push_outcome(out, &run.outcome)?;
    push_trace(out, funcs, run.trace.as_slice())
}
