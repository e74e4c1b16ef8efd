//! The reasons of the last steps.

ghost use Rattle.std.specs.Prelude.{◌≡◌};

use crate::fences::{command_of_step, is_fence};
use crate::ignored::{is_carried_out, writes_held};
use crate::invalidations::{Invalidation, invalidation_after};
use crate::settling::{Settling, UnsettledAccess, settle, settle_behind};
use crate::stale::{StaleAccess, filler_for, kept_by, led_as};
use iom_account::{Account, History, NumberedWarrant, Reason};
use iom_core::{Answer, Platform, Request, Step, Way};
use iom_owed::{Holdings, Owed};
use std::alloc::Global;
use std::marker::Model;

/// The reasons of the last 32 steps of a script, beside a platform and a trace: the warrant of each access, and the way that the tables gave
/// it then if it was stale; the last access of a line that was stale, and whether a step of the line carried out an IOFENCE.C, or was a write that a busy
/// register ignored; the last invalidation that a step of any line carried out; and, where that is wanted, the last access of a line that wasn't settled.
#[derive(Drop)]
pub struct LineAccount {
    account: Account,
    stale: Option<StaleAccess>,
    has_fence: bool,
    has_ignored: bool,
    last_invalidation: Option<Invalidation>,
    // if settledness is followed
    settling: Option<Settling>,
}

impl Model for LineAccount {
    ghost use Rattle.iom_debug.specs.Reasons.{LineAccountView};

    ghost Value = { LineAccountView };

    ghost view = { λ r. record {
      account = r.account;
      stale = r.stale;
      has_fence = r.has_fence;
      has_ignored = r.has_ignored;
      last_invalidation = r.last_invalidation;
      settling = r.settling;
    } };
}

impl LineAccount {
    ghost use Rattle.std.specs.Prelude.{◌≡◌, ◌≢◌, [], ◌∷◌, true, false, None, IfNone, IfSome, IsSomeAnd, is_some, slice_get};
    ghost use Rattle.std.specs.Option.{option_copied, option_map};
    ghost use Rattle.circular_buffer.specs.Buffer.{last_item};
    ghost use Rattle.iom_account.specs.Account.{Accounts};
    ghost use Rattle.iom_core.specs.Table.{next};
    ghost use Rattle.iom_owed.specs.Holdings.{Keeps};
    ghost use Rattle.iom_debug.specs.Reasons.{GoesAlong, KeepsFence, KeepsIgnored, KeepsInvalidation, KeepsSettling, KeepsStale, begun, newest_origin, newest_tables, stale_in};
    ghost use Rattle.iom_debug.specs.Freeing.{known_holdings};
    ghost use Rattle.iom_debug.specs.Settling.{AreOwedBy, beside_in, is_lost_in, last_unsettled_in, unsettled_in};

    /// Empty reasons of this platform. No call of theirs takes memory. Origins are known only if both caches are empty now.
    pub fn new(platform: &Platform) -> LineAccount
        ensures begins { Accounts result.account platform.now platform.now [] [] }
        ensures empty { result.account.reasons ≡ [] }
        ensures current { result.stale ≡ None }
        ensures fence { result.has_fence ≡ false }
        ensures invalidation { result.last_invalidation ≡ None }
        ensures settling { result.settling ≡ None }
    {
        LineAccount {
            account: Account::new(platform),
            stale: None,
            has_fence: false,
            has_ignored: false,
            last_invalidation: None,
            settling: None,
        }
    }

    /// As `new`, of a platform that has taken no step yet, and it says of each access whether it was settled. For that each step may take
    /// memory; where that is refused, no more is known of accesses, which `is_lost` says.
    pub fn with_holdings(platform: &Platform, alloc: Global) -> LineAccount
        ensures begins { Accounts result.account platform.now platform.now [] [] }
        ensures empty { result.account.reasons ≡ [] }
        ensures current { result.stale ≡ None }
        ensures fence { result.has_fence ≡ false }
        ensures invalidation { result.last_invalidation ≡ None }
        ensures keeps { IsSomeAnd result.settling (λ settling. Keeps [] settling.holdings platform.now platform.now []) }
        ensures first { IsSomeAnd result.settling (λ settling. settling.last ≡ None) }
        ensures settled { IsSomeAnd result.settling (λ settling. settling.unsettled ≡ None) }
        ensures beside { IsSomeAnd result.settling (λ settling. settling.beside ≡ None) }
        ensures known { IsSomeAnd result.settling (λ settling. settling.is_lost ≡ false) }
    {
        LineAccount {
            account: Account::new(platform),
            stale: None,
            has_fence: false,
            has_ignored: false,
            last_invalidation: None,
            settling: Some(Settling::new(alloc)),
        }
    }

    /// As `with_holdings`, of an IOMMU that may also read these requests ahead, at any moment between two steps. Where memory is refused for that,
    /// nothing is known of accesses.
    pub fn reading_ahead(platform: &Platform, alloc: Global, ahead: Vec<Request>) -> LineAccount
        ensures begins { Accounts result.account platform.now platform.now [] [] }
        ensures empty { result.account.reasons ≡ [] }
        ensures current { result.stale ≡ None }
        ensures fence { result.has_fence ≡ false }
        ensures invalidation { result.last_invalidation ≡ None }
        ensures keeps { IsSomeAnd result.settling (λ settling. settling.is_lost ≡ false → Keeps ahead.items settling.holdings platform.now platform.now []) }
        ensures first { IsSomeAnd result.settling (λ settling. settling.last ≡ None) }
        ensures settled { IsSomeAnd result.settling (λ settling. settling.unsettled ≡ None) }
        ensures beside { IsSomeAnd result.settling (λ settling. settling.beside ≡ None) }
    {
        LineAccount {
            account: Account::new(platform),
            stale: None,
            has_fence: false,
            has_ignored: false,
            last_invalidation: None,
            settling: Some(Settling::reading_ahead(platform, alloc, ahead)),
        }
    }

    /// Which lines filled what the caches hold.
    pub fn history(&self) -> &History
        ensures { result.now ≡ self.now.account.history }
    {
        self.account.history()
    }

    /// The reason of step `i` of the last 32, the oldest 0, as in the trace; None if there is none. The way in it is one that the tables
    /// may give.
    pub fn reason(&self, i: u64) -> Option<&Reason>
        ensures reason { option_copied result ≡ slice_get self.now.account.reasons i }
    {
        self.account.reason(i)
    }

    /// The reason of the last step; None if there was no step.
    pub fn newest(&self) -> Option<&Reason>
        ensures reason { option_copied result ≡ last_item self.now.account.reasons }
    {
        self.account.newest()
    }

    /// The warrant of the last step's access, with the numbers of steps; None if it made none or was denied.
    pub fn newest_origin(&self) -> Option<NumberedWarrant>
        ensures { result ≡ newest_origin self.now.account }
    {
        self.newest()?.origin
    }

    // The way of the tables just before the last step's access; None if that was not stale.
    fn newest_tables(&self) -> Option<Way>
        ensures { result ≡ newest_tables self.now.account }
    {
        self.newest()?.stale
    }

    /// The last access of the last line that was stale; None if none was.
    pub fn stale(&self) -> Option<StaleAccess>
        ensures { result ≡ self.now.stale }
    {
        self.stale
    }

    /// Whether a step of the last line carried out an IOFENCE.C.
    pub fn has_fence(&self) -> bool
        ensures { result ≡ self.now.has_fence }
    {
        self.has_fence
    }

    /// Whether a step of the line was a write that the IOMMU ignored, since a register is busy.
    pub fn has_ignored(&self) -> bool
        ensures { result ≡ self.now.has_ignored }
    {
        self.has_ignored
    }

    /// The last invalidation that a step of any line carried out; None if none did.
    pub fn last_invalidation(&self) -> Option<Invalidation>
        ensures { result ≡ self.now.last_invalidation }
    {
        self.last_invalidation
    }

    /// The access of the last step, if that wasn't settled just before it; None if it was, the step made none, or settledness isn't followed.
    pub fn last_unsettled(&self) -> Option<UnsettledAccess>
        ensures { result ≡ last_unsettled_in self.now.settling }
    {
        self.settling.as_ref()?.last()
    }

    /// The last access of the last line that wasn't settled; None if each was, or settledness isn't followed.
    pub fn unsettled(&self) -> Option<UnsettledAccess>
        ensures { result ≡ unsettled_in self.now.settling }
    {
        self.settling.as_ref()?.unsettled()
    }

    /// The last access of the last line that was settled, and that an IOMMU may take by another way to where the tables take it; None if there was
    /// none, or settledness isn't followed.
    pub fn beside(&self) -> Option<UnsettledAccess>
        ensures { result ≡ beside_in self.now.settling }
    {
        self.settling.as_ref()?.beside()
    }

    /// Whether settledness is followed: what any IOMMU may hold is kept.
    pub fn tells_settled(&self) -> bool
        ensures { result ≡ is_some self.now.settling }
    {
        self.settling.is_some()
    }

    /// Whether settledness is followed, and memory was refused for that. Then nothing is known of later accesses.
    pub fn is_lost(&self) -> bool
        ensures { result ≡ is_lost_in self.now.settling }
    {
        match &self.settling {
            Some(settling) => settling.is_lost(),
            None => false,
        }
    }

    /// What is owed now: the requests that the steps made and that aren't settled on this platform, if settledness is followed; each with the
    /// number of the newest step that made it. None if it isn't followed, and if memory is refused, which `is_lost` then says.
    pub fn owed(&mut self, platform: &Platform) -> Option<Vec<Owed>>
        ensures owed { IfSome result (λ owed. AreOwedBy self.old.settling platform.now owed.items) }
        ensures known { IfSome result (λ owed. is_lost_in self.old.settling ≡ false) }
        ensures kept { IfSome result (λ owed. self.new ≡ self.old) }
        ensures none { IfNone result (is_lost_in self.new.settling ≡ false → self.old.settling ≡ None) }
        ensures lost { is_lost_in self.old.settling ≡ true → is_lost_in self.new.settling ≡ true }
        ensures invalidation { self.new.last_invalidation ≡ self.old.last_invalidation }
    {
        self.settling.as_mut()?.owed(platform)
    }

    /// As `owed`, but if memory is refused nothing changes.
    pub fn owed_now(&self, platform: &Platform) -> Option<Vec<Owed>>
        ensures owed { IfSome result (λ owed. AreOwedBy self.now.settling platform.now owed.items) }
        ensures known { IfSome result (λ owed. is_lost_in self.now.settling ≡ false) }
        ensures told { IfSome result (λ owed. self.now.settling ≢ None) }
    {
        self.settling.as_ref()?.owed_now(platform)
    }

    /// What any IOMMU may hold now; None where that isn't kept, or memory was refused for it.
    pub fn holdings(&self) -> Option<&Holdings>
        ensures { option_map (λ held. held.now) result ≡ known_holdings self.now.settling }
    {
        self.settling.as_ref()?.holdings()
    }

    /// A line begins: none of its accesses was stale or unsettled yet, and it carried out no IOFENCE.C and no write that was ignored.
    pub fn begin_line(&mut self)
        ensures { self.new ≡ begun self.old }
    {
        self.stale = None;
        self.has_fence = false;
        self.has_ignored = false;
        if let Some(settling) = &mut self.settling {
            settling.begin_line();
        }
    }

    /// Carries out the next step on the platform, a step of the line of this number, writes its answer to `answer`, and keeps its reason.
    /// If there are 32 the oldest leaves. Answers the step's access if that was stale. If settledness is followed, it is judged just before.
    #[tactic(auto, using(crate::proofs::Newest::tables_newest, crate::proofs::Newest::led_before))]
    pub fn step(
        &mut self,
        platform: &mut Platform,
        step: &Step,
        number: u64,
        answer: &mut Answer,
    ) -> Option<StaleAccess>
        ensures answer { answer.new ≡ (next platform.old step.now).answer }
        ensures state { platform.new ≡ (next platform.old step.now).state }
        ensures access { result ≡ stale_in self.old platform.old step.now self.new }
        ensures stale { KeepsStale self.old platform.old step.now self.new }
        ensures fence { KeepsFence self.old platform.old step.now self.new }
        ensures ignored { KeepsIgnored self.old platform.old step.now self.new }
        ensures settled { KeepsSettling self.old platform.old step.now number self.new }
        ensures invalidation { KeepsInvalidation self.old platform.old step.now number self.new }
        ensures along { GoesAlong self.old platform.old (step.now ∷ []) number self.new platform.new }
    {
        let request = platform.request_of(step);
        let line = filler_for(self.account.history(), platform, request);
        let command = command_of_step(platform, step);
        let held = writes_held(platform, step);
        settle(&mut self.settling, platform, step, number);
        let seen = self.account.step(platform, step, number, answer);
        settle_behind(&mut self.settling, platform, number);
        self.has_fence = self.has_fence || is_fence(&command);
        self.has_ignored = self.has_ignored || held && is_carried_out(answer);
        self.last_invalidation = invalidation_after(number, command, self.last_invalidation);
        let led = led_as(request, &seen, line);
        let stale = kept_by(led, self.newest_origin(), self.newest_tables());
        if stale.is_some() {
            self.stale = stale;
        }
        stale
    }
}
