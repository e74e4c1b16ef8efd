ghost use Rattle.std.specs.Prelude.{◌≡◌, ℕ, Bool, false, List, [], reverse, Option};
ghost use Rattle.iom_choices.specs.Choices.{Choice, end_as, replies_as, steps_of};
ghost use Rattle.iom_core.specs.Run.{answers};
ghost use Rattle.iom_core.specs.declared.access.Request.{Request};
ghost use Rattle.iom_core.specs.declared.step.Step.{Step};
ghost use Rattle.iom_choices.specs.Carried.{carrying, plain_steps};
ghost use Rattle.iom_choices.specs.Models.{replies_in, run_of};
ghost use Rattle.iom_choices.specs.Pauses.{taken, tells_or_none};
ghost use Rattle.iom_every.specs.Every.{every_view, iommu, is_listed, late_iommu, late_view, none_ahead, platform, prefetching_iommu, queue_commands};
ghost use Rattle.iom_every.specs.Rows.{bare};
ghost use Rattle.iom_every.specs.Uses.{Look};
ghost use Rattle.iom_owed.specs.Settled.{IsEachSettled};
ghost use Rattle.iom_reader.specs.Lines.{lines_of};
ghost use Rattle.iom_check.specs.Checking.{Checked, IsChecked};
ghost use Rattle.iom_check.specs.Scripts.{AreLinesSettled, BeginsSettled, IsNothingOwed, PassesSettled, WantSettled, newest_first, script_steps};
ghost use Rattle.iom_check.specs.declared.rules.Tally.{Tally};

use iom_every::runs_are_this_models;
use iom_owed::settled_steps_are_answered_alike;

/// If `check` carries out the lines of a script and judges whether their accesses are settled, none fails, and no wish ends with `unsettled`,
/// then the access of each step was settled just before it. So every IOMMU that reads nothing ahead and whose commands take effect at the next
/// fence at the latest gives the answers of this run, and leaves its memory, registers, devices and disks (RISC-V IOMMU Architecture 1.0,
/// "Caching in-memory data structures", "IOMMU Command-queue Fence commands"); so does each that carries out every command as a whole
/// (`carried`). Each that may also read these requests ahead by memory alone, in any pause between the steps, answers so too (`ahead`). A whole script
/// in whose count nothing failed is such a script (`whole`). Where wishes end with `unsettled`, the accesses of the other lines were settled
/// (`lines`). In either case nothing is owed at its end (`unowed`). At the start nothing is cached and no step was taken; memory wasn't refused
/// for following what an IOMMU may hold. Steps are listed newest first, each with the choice of the IOMMU in it; a pause is None.
pub fn scripts_without_failures_are_settled()
    ensures settled { (ahead : List Request) (start end : Checked) (lines : List (List ℕ)) (text : List ℕ) → PassesSettled ahead start lines text end →
        IsEachSettled ahead start.desk.state (newest_first start lines) }
    ensures state { (ahead : List Request) (start end : Checked) (lines : List (List ℕ)) (text : List ℕ) (chosen : List (Step × Choice Request Look)) →
        PassesSettled ahead start lines text end → steps_of chosen ≡ newest_first start lines →
        (end_as (late_iommu none_ahead) (late_view start.desk.state []) chosen).state.now ≡ bare end.desk.state }
    ensures answers { (ahead : List Request) (start end : Checked) (lines : List (List ℕ)) (text : List ℕ) (chosen : List (Step × Choice Request Look)) →
        PassesSettled ahead start lines text end → steps_of chosen ≡ newest_first start lines →
        replies_as (late_iommu none_ahead) (late_view start.desk.state []) chosen ≡ reverse (answers start.desk.state (script_steps start lines)) }
    ensures carried { (ahead : List Request) (start end : Checked) (lines : List (List ℕ)) (text : List ℕ) (chosen : List ((Step × List Bool) × Choice Request Look)) →
        PassesSettled ahead start lines text end → plain_steps (steps_of chosen) ≡ newest_first start lines →
        replies_as (carrying (iommu none_ahead) queue_commands) (record { now = bare start.desk.state; due = [] }) chosen
        ≡ reverse (answers start.desk.state (script_steps start lines)) }
    ensures ahead { (ahead : List Request) (start end : Checked) (lines : List (List ℕ)) (text : List ℕ) (chosen : List (Option Step × Choice (Bool × Request) Look)) →
        PassesSettled ahead start lines text end → taken (steps_of chosen) ≡ newest_first start lines →
        replies_as (prefetching_iommu (is_listed ahead)) (every_view start.desk.state []) chosen
        ≡ replies_in (tells_or_none (run_of platform start.desk.state).tells) (steps_of chosen) }
    ensures whole { (ahead : List Request) (start : Checked) (unread left held holds : Option (List ℕ)) (tally : Tally)
        (done : IsChecked start unread left held holds false tally) → BeginsSettled ahead start → tally.failed ≡ 0 →
        WantSettled (lines_of done.script) → PassesSettled ahead start (lines_of done.script) done.text done.end }
    ensures lines { (ahead : List Request) (start : Checked) (unread left held holds : Option (List ℕ)) (tally : Tally)
        (done : IsChecked start unread left held holds false tally) → BeginsSettled ahead start → tally.failed ≡ 0 →
        AreLinesSettled ahead start.desk.state [] start.desk.names start.desk.state (lines_of done.script) }
    ensures unowed { (ahead : List Request) (start : Checked) (unread left held holds : Option (List ℕ)) (tally : Tally)
        (done : IsChecked start unread left held holds false tally) → BeginsSettled ahead start → tally.failed ≡ 0 →
        IsNothingOwed ahead start.desk.state (newest_first start (lines_of done.script)) }
{
    settled_steps_are_answered_alike();
    runs_are_this_models();
}
