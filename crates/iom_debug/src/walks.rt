//! The texts of the parts of a walk.

ghost use Rattle.std.specs.Prelude.{◌≡◌, All, IfSome, slice_get};
ghost use Rattle.std.specs.Option.{option_copied};
ghost use Rattle.iom_tables.specs.Bounds.{PartFits};
ghost use Rattle.iom_debug.specs.Walks.{part_text, walk_text};

use crate::parts::put_part;
use crate::text::reply_of;
use iom_core::{Platform, Request};
use iom_tables::{Part, Parts, put_parts};
use iom_tool::{Reply, ReplyDraft};

/// Part `i` of the walk of a request as the tables stand now, the first 0; `none` past the last one.
#[tactic(auto, unfolding(crate::specs::Walks::walk_text))]
pub fn walk_line(platform: &Platform, request: &Request, i: u64) -> Reply
    ensures { result.items ≡ walk_text platform.now.machine request.now i }
{
    let mut parts = Parts::new();
    put_parts(&mut parts, platform, request);
    match part_at(&parts, i as usize) {
        Some(part) => part_line(platform, request, part),
        None => reply_of(b"none"),
    }
}

// The part at a place.
#[tactic(auto, using(crate::proofs::Bounds::part_fits))]
fn part_at(parts: &Parts, i: usize) -> Option<&Part>
    requires { All PartFits parts.now.items }
    ensures part { option_copied result ≡ slice_get parts.now.items i }
    ensures fits { IfSome (option_copied result) PartFits }
{
    parts.as_slice().get(i)
}

// One part of the walk of a request as the tables stand now.
fn part_line(platform: &Platform, request: &Request, part: &Part) -> Reply
    requires { PartFits part.now }
    ensures { result.items ≡ part_text platform.now.machine request.now part.now }
{
    let mut draft = ReplyDraft::new();
    put_part(&mut draft, platform, request, part);
    reply_of(draft.as_slice())
}
