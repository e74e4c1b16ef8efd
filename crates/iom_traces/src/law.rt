ghost use Rattle.std.specs.Prelude.{◌≡◌, ◌≤◌, ℕ, Bool, false, List, [], ◌∷◌, Option};
ghost use Rattle.iom_core.specs.State.{State};
ghost use Rattle.iom_core.specs.declared.step.Step.{Step};
ghost use Rattle.iom_every.specs.Judged.{IsOneTraceAllowed};
ghost use Rattle.iom_check.specs.declared.rules.Tally.{Tally};
ghost use Rattle.iom_debug.specs.Places.{PlaceView};
ghost use Rattle.iom_judge.specs.Candidates.{AreCandidates, most_candidates};
ghost use Rattle.iom_judge.specs.Seen.{fits_seen};
ghost use Rattle.iom_judge.specs.declared.judge.Verdict.TheVariants.{Refused};
ghost use Rattle.iom_judge.specs.declared.seen.Seen.{Seen};
ghost use Rattle.iom_reader.specs.Lines.{lines_of};
ghost use Rattle.iom_traces.specs.Shown.{AreShown, PassesAll, behind};
ghost use Rattle.iom_traces.specs.Sights.{seen_by};
ghost use Rattle.iom_traces.specs.Trials.{Judged, StepSays, Tried};
ghost use Rattle.iom_traces.specs.Whole.{IsTried};

/// If no line of a trace fails, some IOMMU shows what was seen of all its lines: one that reads nothing ahead, and whose commands take effect at the
/// next fence at the latest (`allowed`). A whole trace in whose count nothing failed is such a one (`whole`). If a step is refused, no such IOMMU
/// shows what was seen of it after the steps before (`refused`). Commands that nobody saw come up to `most` times before a step, if that is allowed
/// for; from 64 on it is the same for each number (RISC-V IOMMU Architecture 1.0, "Caching in-memory data structures", "IOMMU Command-queue Fence
/// commands").
pub fn traces_without_failures_are_allowed()
    ensures allowed { (start : State) (most : ℕ) (begin end : Tried) (lines : List (List ℕ)) (text : List ℕ) → most_candidates ≤ most →
        AreCandidates start ([] ∷ []) begin.judged.candidates → PassesAll begin lines text end →
        (traces : List (List (Step × Seen))) × AreShown begin.hides most begin.names lines ([] ∷ []) traces × IsOneTraceAllowed [] fits_seen start traces }
    ensures whole { (begin : Tried) (unread left held holds : Option (List ℕ)) (tally : Tally) (done : IsTried begin unread left held holds false tally) →
        begin.judged.is_over ≡ false → tally.failed ≡ 0 → PassesAll begin (lines_of done.script) done.text done.end }
    ensures refused { (start : State) (most : ℕ) (traces : List (List (Step × Seen))) (hides : Bool) (place : PlaceView) (before after : Judged) (taken : Step)
        (line said : List ℕ) (one : StepSays hides place before taken line said after) → most_candidates ≤ most → AreCandidates start traces before.candidates →
        one.verdict ≡ Refused → IsOneTraceAllowed [] fits_seen start (behind hides most taken (seen_by one.sight) traces) → ⊥ }
{}
