//! The laws of the core. There is nothing to do in them: the contract is the law.
ghost use Rattle.std.specs.Prelude.{◌≡◌, ◌≢◌, ◌⊎◌, ℕ, ◌<◌, ◌≤◌, List, [], ◌∷◌, ◌++◌, ◌^◌, length, slice_set, false};
ghost use mathlib.Core.Option.{some};
ghost use lib.ListN.{get_elem?};
ghost use Rattle.scev_tree.specs.Polynomial.{IsCanonical, Polynomial, Under};
ghost use Rattle.step_core.specs.declared.event.Event.{Event};
ghost use Rattle.step_core.specs.declared.view.View.{View};
ghost use Rattle.step_core.specs.declared.words.Place.{Place};
ghost use Rattle.step_core.specs.declared.words.Words.{Words};
ghost use Rattle.step_core.specs.Answers.{IsAtPlace, word_at, words_after, words_after_all};
ghost use Rattle.step_core.specs.Cells.{Learns, Stands};
ghost use Rattle.step_core.specs.Events.{Allowed, Clears, IsLive, LearnsCells, Runs, State};
ghost use Rattle.step_core.specs.Good.{AreCells, Good, IsEmptyTable};
ghost use Rattle.step_core.specs.Limits.{author_limit};
ghost use Rattle.step_core.specs.Maps.{AllOf, Has, Map, full_places, times};
ghost use Rattle.step_core.specs.Parts.{Part, expression_part, height};
ghost use Rattle.step_core.specs.Views.{dealer, dealt, first_view};
ghost use Rattle.step_core.specs.Words.{AreSized, id_of, version_of};

use crate::meaning::MemoMeaning;

/// Events that are each allowed at their turn keep the state good.
pub fn events_keep_good<M: MemoMeaning>()
    ensures { (base : List ℕ) (count : ℕ) (s t : State) (events : List Event)
        → Good M.meaning base count s.words s.views → Runs M.meaning s events t
        → Good M.meaning base count t.words t.views }
{}

/// Events that are each allowed at their turn have places of the table, and leave the words as
/// `replay` does. So each answer of `replay` is what the event's place holds at its turn.
pub fn runs_are_replayed<M: MemoMeaning>()
    ensures places { (s t : State) (events : List Event) → Runs M.meaning s events t
        → AllOf (IsAtPlace s.words) events }
    ensures words { (s t : State) (events : List Event) → Runs M.meaning s events t
        → t.words ≡ words_after_all s.words events }
{}

/// In a good state each event that is allowed can take place: there are cells that its view learns.
pub fn events_can_take_place<M: MemoMeaning>()
    ensures { (base : List ℕ) (count : ℕ) (s : State) (e : Event)
        → Good M.meaning base count s.words s.views → (a : Allowed M.meaning s e)
        → (now : Map) × LearnsCells s.words a.view e now }
{}

/// No event changes a full place of the log, of the keys or of the cells. A full id place changes
/// only by a clearing of the word that stands there.
pub fn full_places_stay<M: MemoMeaning>()
    ensures log { (s : State) (e : Event) (k : ℕ) → Allowed M.meaning s e
        → word_at s.words (Place.Log k) ≢ 0
        → word_at (words_after s.words e) (Place.Log k) ≡ word_at s.words (Place.Log k) }
    ensures keys { (s : State) (e : Event) (k : ℕ) → Allowed M.meaning s e
        → word_at s.words (Place.Key k) ≢ 0
        → word_at (words_after s.words e) (Place.Key k) ≡ word_at s.words (Place.Key k) }
    ensures cells { (s : State) (e : Event) (k : ℕ) → Allowed M.meaning s e
        → word_at s.words (Place.Cell k) ≢ 0
        → word_at (words_after s.words e) (Place.Cell k) ≡ word_at s.words (Place.Cell k) }
    ensures ids { (s : State) (e : Event) (k : ℕ) → Allowed M.meaning s e
        → word_at s.words (Place.Id k) ≢ 0
        → (word_at (words_after s.words e) (Place.Id k) ≡ word_at s.words (Place.Id k))
        ⊎ Clears s.words e k }
{}

/// An id that a view finds at a place whose key it knows stands together with that key, by the log
/// and the cells that the view then knows, where it has seen the key's version.
pub fn found_ids_stand<M: MemoMeaning>()
    ensures { (base : List ℕ) (count seat k key : ℕ) (s : State) (v : View) (now : Map)
        → Good M.meaning base count s.words s.views → IsLive s.views seat v
        → Has v.keys k key → version_of key ≤ length v.log → word_at s.words (Place.Id k) ≢ 0
        → Learns (full_places s.words.cells) v.cells (id_of (word_at s.words (Place.Id k))) now
        → M.meaning.stand v.base v.log now key (id_of (word_at s.words (Place.Id k))) }
{}

/// Where nothing was written, the state with the first view alone is good.
pub fn start_is_good<M: MemoMeaning>()
    ensures { (base : List ℕ) (count : ℕ) (words : Words)
        → AreSized words → IsEmptyTable words → count ≤ author_limit
        → Good M.meaning base count words (first_view base count ∷ []) }
{}

/// A view without events may give one author to a new view.
pub fn dealing_keeps_good<M: MemoMeaning>()
    ensures { (base : List ℕ) (count seat : ℕ) (s : State) (v : View)
        → Good M.meaning base count s.words s.views → IsLive s.views seat v → v.events ≡ []
        → Good M.meaning base count s.words (slice_set s.views seat (dealer v) ++ dealt v ∷ []) }
{}

/// The words are good with one view alone that has all authors.
pub fn closing_keeps_good<M: MemoMeaning>()
    ensures { (base : List ℕ) (count seat : ℕ) (s : State) (v : View)
        → Good M.meaning base count s.words s.views → IsLive s.views seat v
        → ((a : ℕ) → a < count → 0 < times a v.authors)
        → Good M.meaning base count s.words (v ∷ []) }
{}

/// Among good cells a part stands in one cell at most, and a cell stands for one part at most.
pub fn parts_are_unique()
    ensures cell { (cells : List ℕ) (p : Part) (i j : ℕ) → AreCells cells
        → Stands (full_places cells) i p → Stands (full_places cells) j p → i ≡ j }
    ensures part { (cells : List ℕ) (p q : Part) (i : ℕ)
        → Stands (full_places cells) i p → Stands (full_places cells) i q → p ≡ q }
{}

/// A part is no higher than there are cells, so that a reader of parts ends within as many calls.
pub fn parts_are_low()
    ensures { (cells : List ℕ) (p : Part) (id : ℕ)
        → Stands (full_places cells) id p → height p ≤ length cells }
{}

/// Equal parts are of equal expressions, widths included.
pub fn equal_parts_are_of_equal_expressions()
    ensures { (w x : ℕ) (p q : Polynomial) → w ≤ 64 → x ≤ 64
        → IsCanonical (2 ^ w) p → IsCanonical (2 ^ x) q → Under p (2 ^ 33) → Under q (2 ^ 33)
        → expression_part w p ≡ expression_part x q → (w ≡ x) × (p ≡ q) }
{}
