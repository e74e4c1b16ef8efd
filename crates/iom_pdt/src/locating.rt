//! The search of a process directory.

ghost use Rattle.std.specs.Prelude.{◌≡◌};
ghost use Rattle.iom_pdt.specs.Located.{context_at, located, page_behind, page_of, pointed_by};

use crate::context::{ProcessContext, context_of};
use crate::directory::{ProcessDirectory, is_too_wide, levels_of, pdi};
use iom_bits::{Features, Kind, Number};
use iom_ddt::{Context, Refusal, entry_refusal};
use iom_mem::{Region, words_at};
use iom_nested::{Physical, second_shape};
use iom_walk::{Format, Outcome, walk};

/// Why no process context was found ("Process to locate the Process-context").
#[derive(Clone, Copy, PartialEq)]
pub enum Unlocated {
    /// The process id is wider than the directory's mode supports.
    TooWide,
    /// An entry of the second stage is outside memory.
    SecondOutside,
    /// The second stage doesn't translate the page of the table at this guest-physical address.
    Guest(u64),
    /// The directory refuses an entry or the context.
    Refused(Refusal),
}

/// The process context of a process id ("Process to locate the Process-context").
///
/// `TooWide` is tested first. Then the entries on the way and the context are judged in turn, and the first fault is the answer. Under a second
/// stage, that of the device's context, the address of each table is guest-physical, and is translated as an implicit read.
#[tactic(auto, unfolding(crate::specs::Located::located))]
pub fn locate<M: Region>(
    ram: &M,
    features: Features,
    context: &Context,
    directory: &ProcessDirectory,
    id: Number<20>,
) -> Result<ProcessContext, Unlocated>
    ensures { result ≡ located (M.memory ram.now) features context.now directory.now id }
{
    if is_too_wide(directory.depth, id) {
        return Err(Unlocated::TooWide);
    }
    let mut table = directory.root;
    for level in (1..levels_of(directory.depth)).rev() {
        let page = page_of(ram, features, context, table)?;
        table = pointed_by(ram.word(page.get() * 4096 + pdi(id, level) * 8))?;
    }
    let page = page_of(ram, features, context, table)?;
    context_at(features, words_at(ram, page.get() * 4096 + pdi(id, 0) * 16))
}

// The page of memory that has a table: its PPN, and that of its page behind the second stage if there is one.
fn page_of<M: Region>(
    ram: &M,
    features: Features,
    context: &Context,
    table: Number<44>,
) -> Result<Number<44>, Unlocated>
    ensures { result ≡ page_of (M.memory ram.now) features context.now table }
{
    let Some(shape) = second_shape(context) else {
        return Ok(table);
    };
    let outcome = walk(
        &Physical { ram },
        Format::of_user(shape, features),
        context.fields.gppn,
        table.get() * 4096,
        Kind::Read,
    );
    match outcome {
        Outcome::Leaf(leaf) => Ok(Number::of(leaf.frame)),
        Outcome::Outside => Err(Unlocated::SecondOutside),
        Outcome::Guest(_) | Outcome::Fault => Err(Unlocated::Guest(table.get() * 4096)),
    }
}

// The PPN of the table that an entry with this word points to; None is an entry of which a byte is outside memory.
fn pointed_by(entry: Option<u64>) -> Result<Number<44>, Unlocated>
    ensures { result ≡ pointed_by entry }
{
    let Some(entry) = entry else {
        return Err(Unlocated::Refused(Refusal::Outside));
    };
    match entry_refusal(entry) {
        Some(why) => Err(Unlocated::Refused(why)),
        None => Ok(Number::low(entry >> 10)),
    }
}

// The context with these words; None is one of which a byte is outside memory.
fn context_at(features: Features, words: Option<[u64; 2]>) -> Result<ProcessContext, Unlocated>
    ensures { result ≡ context_at features words }
{
    match words {
        None => Err(Unlocated::Refused(Refusal::Outside)),
        Some(words) => context_of(features, words).map_err(Unlocated::Refused),
    }
}
